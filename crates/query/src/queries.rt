// What a line asks: a branch to write, or bytes to read.
ghost use Rattle.std.specs.Prelude.{IfOk, MatchResult, vec_items};
ghost use Rattle.std.specs.Option.{option_map};
ghost use Rattle.query.specs.Queries.{Asked, Asks, BranchWords, Found, HexWord, LineReads, Task, TaskReads};
ghost use Rattle.query.specs.Words.{words};

use crate::numbers::{read_hex, signed, unsigned};
use crate::words::next_word;
use std::alloc::{AllocError, Global};
use target::Branch;

#[derive(Drop)]
pub enum Query {
    Write(Branch),
    Read(Vec<u8>),
}

// Kind, form and distance, one word each.
fn branch_words(line: &[u8]) -> Option<Branch>
    ensures { Found (BranchWords (words line.now)) result }
{
    let (kind, rest) = next_word(line)?;
    let (form, rest) = next_word(rest)?;
    let (distance, rest) = next_word(rest)?;
    if next_word(rest).is_some() {
        return None;
    }
    Some(Branch {
        kind: unsigned(kind)?,
        form: unsigned(form)?,
        distance: signed(distance)?,
    })
}

// One word of hexadecimal digits. The allocator stands beside the line here and in what follows, as the library's own calls take it: a pair would be made to be taken apart.
fn hex_word(heap: Global, line: &[u8]) -> Result<Option<Vec<u8>>, AllocError>
    ensures { IfOk result (λ bytes. Found (HexWord (words line.now)) (option_map vec_items bytes)) }
{
    match next_word(line) {
        Some((word, rest)) if next_word(rest).is_none() => read_hex(heap, word),
        _ => Ok(None),
    }
}

// What to do, after the target's name.
fn task(heap: Global, line: &[u8]) -> Result<Option<Query>, AllocError>
    ensures { MatchResult result (λ query. Asked Task (words line.now) query) (λ _. TaskReads (words line.now)) }
{
    match next_word(line) {
        Some((b"write", rest)) => Ok(branch_words(rest).map(Query::Write)),
        Some((b"read", rest)) => Ok(hex_word(heap, rest)?.map(Query::Read)),
        _ => Ok(None),
    }
}

// What a line asks, or that it asks nothing.
pub fn understand(heap: Global, line: &[u8]) -> Result<Option<Query>, AllocError>
    ensures { MatchResult result (λ query. Asked Asks (words line.now) query) (λ _. LineReads (words line.now)) }
{
    match next_word(line) {
        Some((b"x86", rest)) => task(heap, rest),
        _ => Ok(None),
    }
}
