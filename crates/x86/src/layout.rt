// An instruction's bytes: written from an encoding and a distance, and read again.
ghost use Rattle.std.specs.Prelude.{◌≡◌, ◌≤◌, ◌++◌, length, drop, pos, ◌-ℤ◌};
ghost use Rattle.std.specs.Option.{SomeIff};
ghost use Rattle.target.specs.Refusals.{Judged, refusal};
ghost use Rattle.target.specs.Table.{Encoded, Takes, encode_table};
ghost use Rattle.x86.specs.Encodings.{size as size_of, storing, table};
ghost use Rattle.x86.specs.Laws.{laws};
ghost use Rattle.x86.specs.Stores.{InWidth, Parted, Spelling};

use crate::encodings::Encoding;
use target::{Encode, Extent, Spelled, WriteFault};

// An encoding, and the displacement that it stores.
#[derive(Clone, Copy)]
struct Stored {
    encoding: Encoding,
    displacement: i32,
}

impl Stored {
    // What an encoding stores for a distance.
    fn of(spelled: Spelled<Encoding>) -> Stored
        requires { Takes table spelled.encoding spelled.distance }
        ensures { result ≡ record { encoding = spelled.encoding; displacement = spelled.distance -ℤ pos (size_of spelled.encoding) } }
    {
        Stored {
            encoding: spelled.encoding,
            displacement: spelled.distance - spelled.encoding.size() as i32,
        }
    }

    // Puts the instruction at the front of `out`.
    fn put(self, out: &mut [u8])
        requires stores { InWidth self.encoding self.displacement }
        requires room { size_of self.encoding ≤ length out.old }
        ensures { out.new ≡ storing self.encoding self.displacement ++ drop (size_of self.encoding) out.old }
    {
        match self.encoding {
            Encoding::Short(op) => {
                out[0] = op;
                out[1] = (self.displacement as i8).cast_unsigned();
            }
            Encoding::Near(op) => {
                out[0] = op;
                out[1..5].copy_from_slice(&self.displacement.to_le_bytes());
            }
            Encoding::Escaped(op) => {
                out[0] = 0x0f;
                out[1] = op;
                out[2..6].copy_from_slice(&self.displacement.to_le_bytes());
            }
        }
    }
}

// The encoding and displacement of exactly these bytes, whatever their opcode.
fn take_apart(bytes: &[u8]) -> Option<Stored>
    ensures { Parted bytes.now result }
{
    match *bytes {
        [op, rel] => Some(Stored {
            encoding: Encoding::Short(op),
            displacement: i32::from(rel.cast_signed()),
        }),
        [op, a, b, c, d] => Some(Stored {
            encoding: Encoding::Near(op),
            displacement: i32::from_le_bytes([a, b, c, d]),
        }),
        [0x0f, op, a, b, c, d] => Some(Stored {
            encoding: Encoding::Escaped(op),
            displacement: i32::from_le_bytes([a, b, c, d]),
        }),
        _ => None,
    }
}

// An encoding and a distance, where the one can be written with the other.
fn within_reach(spelled: Spelled<Encoding>) -> Option<Spelled<Encoding>>
    ensures { SomeIff result (Takes table spelled.encoding spelled.distance) spelled }
{
    spelled.takes().then_some(spelled)
}

// The encoding and distance of exactly these bytes, whatever their opcode.
fn decode(bytes: &[u8]) -> Option<Spelled<Encoding>>
    ensures { Spelling bytes.now result }
{
    let Stored {
        encoding,
        displacement,
    } = take_apart(bytes)?;
    let distance = displacement.checked_add(encoding.size() as i32)?;
    within_reach(Spelled { encoding, distance })
}

impl Encode for Encoding {
    ghost laws = { laws };

    // The steps stand in each instruction set: shared, they would need a public call that puts. None may ask that its caller has checked, and one that asks nothing would have to check again.
    // The clauses are the trait's: the check does not yet give them to a method that takes a `Spelled<Self>`.
    fn write(spelled: Spelled<Encoding>, out: &mut [u8]) -> Result<(), WriteFault>
        ensures refuses { Judged (encode_table table spelled.encoding spelled.distance (length out.old)) (refusal result) }
        ensures after { Encoded table spelled.encoding spelled.distance out.old result out.new }
    {
        spelled.check(out.len())?;
        Stored::of(spelled).put(out);
        Ok(())
    }

    fn decode(bytes: &[u8]) -> Option<Spelled<Encoding>> {
        decode(bytes)
    }
}
