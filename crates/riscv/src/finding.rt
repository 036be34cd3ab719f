// The one encoding and distance that bytes can spell. Whether they do is found by writing that again.
ghost use Rattle.std.specs.Prelude.{◌≡◌, Decides};
ghost use Rattle.target.specs.Table.{Decoded, Spells};
ghost use Rattle.riscv.specs.Encodings.{table};
ghost use Rattle.riscv.specs.Finding.{FindsFar, FindsLong, FindsPair, FindsSpelling, alone};

use crate::encodings::Encoding;
use crate::words::instructions::{Instruction, Step};
use target::{Encode, Extent, Listed, Spelled};

// The distance with these two parts.
fn far(upper: i32, lower: i32) -> i32
    ensures { FindsFar upper lower result }
{
    upper.saturating_mul(4096).saturating_add(lower)
}

// The distance of a long form whose jump has this one.
fn long(onward: i32) -> i32
    ensures { FindsLong onward result }
{
    onward.saturating_add(4)
}

// The encoding and distance of an instruction alone.
fn one(step: Option<Step>) -> Option<Spelled<Encoding>>
    ensures { result ≡ alone step }
{
    step.map(|step| Spelled {
        encoding: Encoding::One(step.instruction),
        distance: step.immediate,
    })
}

// The encoding and distance of two instructions.
fn two(first: Option<Step>, second: Option<Step>) -> Option<Spelled<Encoding>>
    ensures { FindsPair first second result }
{
    let first = first?;
    let second = second?;
    match (first.instruction, second.instruction) {
        (Instruction::Auipc(through), Instruction::Jalr(link, _)) => Some(Spelled {
            encoding: Encoding::Far(link, through),
            distance: far(first.immediate, second.immediate),
        }),
        (Instruction::Branch(comparison), Instruction::Jal(_)) => Some(Spelled {
            encoding: Encoding::Long(comparison.inverse()),
            distance: long(second.immediate),
        }),
        _ => None,
    }
}

// The encoding and distance that these bytes spell, if they spell any.
fn spelling(bytes: &[u8]) -> Option<Spelled<Encoding>>
    ensures { FindsSpelling bytes.now result }
{
    match *bytes {
        [a, b] => one(Step::half(u32::from(u16::from_le_bytes([a, b])))),
        [a, b, c, d] => one(Step::whole(u32::from_le_bytes([a, b, c, d]))),
        [a, b, c, d, e, f, g, h] => two(
            Step::whole(u32::from_le_bytes([a, b, c, d])),
            Step::whole(u32::from_le_bytes([e, f, g, h])),
        ),
        _ => None,
    }
}

// Whether these are the bytes of an encoding and a distance: they are written and compared.
fn spells(found: Spelled<Encoding>, bytes: &[u8]) -> bool
    ensures { Decides result (Spells table bytes.now found.encoding found.distance) }
{
    // the longest encoding has 8 bytes, and nothing of a target is on the heap
    let mut row = [0; 8];
    Encoding::write(found, &mut row).is_ok() && row[..found.encoding.size() as usize] == bytes[..]
}

// The encoding and distance whose bytes these are.
pub fn decode(bytes: &[u8]) -> Option<Spelled<Encoding>>
    ensures { Decoded table bytes.now result }
{
    let found = spelling(bytes)?;
    // most of what is found is of no kind, and that is told sooner than its bytes are written
    found.encoding.entry()?;
    spells(found, bytes).then_some(found)
}
