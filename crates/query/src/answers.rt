// The answer to a question, for any target, and its text.
ghost use Rattle.std.specs.Prelude.{Some, ◌≡◌, ◌*◌, ◌<◌, ◌≤◌, length, take};
ghost use Rattle.std.specs.Char.{digit_char};
ghost use Rattle.std.specs.Fmt.{WritesOnOk};
ghost use Rattle.std.specs.Result.{MatchResult};
ghost use Rattle.query.specs.Answers.{Answered, TakesMemory, text};
ghost use Rattle.query.specs.Queries.{question, write as writing};
ghost use Rattle.query.specs.Words.{hex as hex_of};

use crate::queries::Query;
use std::alloc::{AllocError, Global};
use std::fmt;
use target::{Branch, Target, WriteFault};

// The longest form of any target. A branch is written into so much first: the heap is asked only for the bytes of one that can be written.
const LONGEST: usize = 16;

// To a branch to write, its bytes or why there are none; to bytes to read, the branch that they mean.
#[derive(Drop)]
pub enum Answer {
    Written(Result<Vec<u8>, WriteFault>),
    Read(Option<Branch>),
}

// A hexadecimal digit, in lower case: no `char::from_digit`, whose `None` would have to be shown never to come.
fn digit(value: u8) -> u8
    requires { value < 16 }
    ensures { result ≡ digit_char value }
{
    if value < 10 {
        b'0' + value
    } else {
        b'a' - 10 + value
    }
}

// The digits of bytes that are no more than the longest form has, at the front of fixed room: a formatter has no heap.
fn digits(bytes: &[u8]) -> [u8; 2 * LONGEST]
    requires { length bytes.now ≤ LONGEST }
    ensures { take (2 * length bytes.now) result ≡ hex_of bytes.now }
{
    let mut digits = [0; 2 * LONGEST];
    for (i, b) in bytes.iter().enumerate() {
        digits[2 * i] = digit(b / 16);
        digits[2 * i + 1] = digit(b % 16);
    }
    digits
}

// Prints bytes that are no more than the longest form has, by one call of the formatter and not one for each byte, since each call of it costs much.
fn print_piece<W: fmt::Write>(f: &mut fmt::Formatter<W>, bytes: &[u8]) -> fmt::Result
    requires { length bytes.now ≤ LONGEST }
    ensures { WritesOnOk W.write_str_gives f.old result (hex_of bytes.now) f.new }
{
    let digits = digits(bytes);
    let Ok(text) = std::str::from_utf8(&digits[..2 * bytes.len()]) else {
        unreachable!();
    };
    f.write_str(text)
}

// Prints bytes in hexadecimal, however many there are.
fn print_hex<W: fmt::Write>(f: &mut fmt::Formatter<W>, bytes: &[u8]) -> fmt::Result
    ensures { WritesOnOk W.write_str_gives f.old result (hex_of bytes.now) f.new }
{
    for piece in bytes.chunks(LONGEST) {
        print_piece(f, piece)?;
    }
    Ok(())
}

impl fmt::Display for Answer {
    ghost output = { λ a. Some (text a) };

    fn fmt<W: fmt::Write>(&self, f: &mut fmt::Formatter<W>) -> fmt::Result {
        match self {
            Answer::Written(Ok(bytes)) => print_hex(f, bytes.as_slice()),
            Answer::Written(Err(fault)) => write!(f, "refused {}", fault.code()),
            Answer::Read(Some(branch)) => write!(
                f,
                "kind {} form {} distance {}",
                branch.kind, branch.form, branch.distance
            ),
            Answer::Read(None) => write!(f, "no branch"),
        }
    }
}

fn write<T: Target>(heap: Global, target: &T, branch: Branch) -> Result<Answer, AllocError>
    ensures { MatchResult result (λ a. Answered (T.Target.meaning target.now) (writing branch) a) (λ _. TakesMemory (T.Target.meaning target.now) (writing branch)) }
{
    let mut out = [0; LONGEST];
    match target.write(branch, &mut out) {
        Ok(()) => {
            let size = target.size(branch.entry()) as usize;
            Ok(Answer::Written(Ok(Vec::from_slice(heap, &out[..size])?)))
        }
        Err(fault) => Ok(Answer::Written(Err(fault))),
    }
}

// Answers a question about a target's branches.
pub fn answer_query<T: Target>(heap: Global, target: &T, query: Query) -> Result<Answer, AllocError>
    ensures { MatchResult result (λ a. Answered (T.Target.meaning target.now) (question query) a) (λ _. TakesMemory (T.Target.meaning target.now) (question query)) }
{
    match query {
        Query::Write(branch) => write(heap, target, branch),
        Query::Read(bytes) => Ok(Answer::Read(target.read(bytes.as_slice()))),
    }
}
