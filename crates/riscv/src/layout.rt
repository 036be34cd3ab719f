// A branch's bytes: written from an encoding and a distance.
ghost use Rattle.std.specs.Prelude.{◌≡◌, ◌+◌, ◌≤◌, ◌++◌, length, drop, pos, ◌-ℤ◌, ◌≤ℤ◌};
ghost use Rattle.target.specs.Meaning.{lowest};
ghost use Rattle.target.specs.Refusals.{Judged, refusal};
ghost use Rattle.target.specs.Table.{Encoded, Takes, encode_table};
ghost use Rattle.riscv.specs.declared.encodings.Encoding.TheVariants.{Far};
ghost use Rattle.riscv.specs.Encodings.{bytes, lower as lower_of, size as size_of, table, upper as upper_of};
ghost use Rattle.riscv.specs.Instructions.{size as instruction_size, stored};
ghost use Rattle.riscv.specs.Laws.{laws};

use crate::encodings::Encoding;
use crate::finding;
use crate::words::instructions::{Instruction, Step};
use target::{Encode, Spelled, WriteFault};

// How many times 4,096 a distance is, to the nearest.
fn upper(distance: i32) -> i32
    requires { Takes table (Far 0 6) distance }
    ensures { result ≡ upper_of distance }
{
    (distance + 2048) >> 12
}

// What is left of a distance.
fn lower(distance: i32) -> i32
    requires { Takes table (Far 0 6) distance }
    ensures { result ≡ lower_of distance }
{
    distance - 4096 * upper(distance)
}

// The distance that is left for a jump 4 bytes behind the branch.
fn onward(distance: i32) -> i32
    requires { lowest ≤ℤ distance }
    ensures { result ≡ distance -ℤ pos 4 }
{
    distance - 4
}

// Puts an instruction at the front of `out`.
fn put_one(step: Step, out: &mut [u8])
    requires { instruction_size step.instruction ≤ length out.old }
    ensures { out.new ≡ stored step.instruction step.immediate ++ drop (instruction_size step.instruction) out.old }
{
    // a word has four bytes; an instruction of 16 bits is the first two
    let bytes = step.instruction.word(step.immediate).to_le_bytes();
    let size = step.instruction.size() as usize;
    out[..size].copy_from_slice(&bytes[..size]);
}

// Puts one instruction after another at the front of `out`.
fn put_two(first: Step, second: Step, out: &mut [u8])
    requires { instruction_size first.instruction + instruction_size second.instruction ≤ length out.old }
    ensures { out.new ≡ (stored first.instruction first.immediate ++ stored second.instruction second.immediate) ++ drop (instruction_size first.instruction + instruction_size second.instruction) out.old }
{
    let (front, rest) = out.split_at_mut(first.instruction.size() as usize);
    put_one(first, front);
    put_one(second, rest);
}

// Puts the branch at the front of `out`.
fn put(spelled: Spelled<Encoding>, out: &mut [u8])
    requires takes { Takes table spelled.encoding spelled.distance }
    requires room { size_of spelled.encoding ≤ length out.old }
    ensures { out.new ≡ bytes spelled.encoding spelled.distance ++ drop (size_of spelled.encoding) out.old }
{
    let distance = spelled.distance;
    match spelled.encoding {
        Encoding::One(instruction) => put_one(
            Step {
                instruction,
                immediate: distance,
            },
            out,
        ),
        Encoding::Far(link, through) => put_two(
            Step {
                instruction: Instruction::Auipc(through),
                immediate: upper(distance),
            },
            Step {
                instruction: Instruction::Jalr(link, through),
                immediate: lower(distance),
            },
            out,
        ),
        Encoding::Long(comparison) => put_two(
            Step {
                instruction: Instruction::Branch(comparison.inverse()),
                immediate: 8,
            },
            Step {
                instruction: Instruction::Jal(0),
                immediate: onward(distance),
            },
            out,
        ),
    }
}

impl Encode for Encoding {
    ghost laws = { laws };

    // The steps stand in each instruction set: shared, they would need a public call that puts. None may ask that its caller has checked, and one that asks nothing would have to check again.
    // The clauses are the trait's: the check does not yet give them to a method that takes a `Spelled<Self>`.
    fn write(spelled: Spelled<Encoding>, out: &mut [u8]) -> Result<(), WriteFault>
        ensures refuses { Judged (encode_table table spelled.encoding spelled.distance (length out.old)) (refusal result) }
        ensures after { Encoded table spelled.encoding spelled.distance out.old result out.new }
    {
        spelled.check(out.len())?;
        put(spelled, out);
        Ok(())
    }

    // Reading stands in a file of its own.
    fn decode(bytes: &[u8]) -> Option<Spelled<Encoding>> {
        finding::decode(bytes)
    }
}
