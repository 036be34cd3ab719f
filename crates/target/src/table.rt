// Targets given by a table: what an instruction set gives of its encodings, and the target that this makes.
ghost use Rattle.std.specs.Prelude.{◌≡◌, length, MatchBool};
ghost use Rattle.target.specs.Refusals.{Judged, refusal};
ghost use Rattle.target.specs.Table.{Decoded, Encoded, Entered, ExtentLaws, Table, KindLaws, Takes, encode_table, encoding, tabled};
ghost use Rattle.target.specs.Laws.{tabled_lawful};

use crate::interface::{Branch, Entry, Target, WriteFault};

// An encoding, and the distance that it branches over.
#[derive(Clone, Copy, PartialEq, Eq, Debug)]
pub struct Spelled<E> {
    pub encoding: E,
    pub distance: i32,
}

impl<E: Extent> Spelled<E> {
    // Whether the encoding can be written with the distance.
    pub fn takes(self) -> bool
        ensures { MatchBool result (Takes E.table self.encoding self.distance) (Takes E.table self.encoding self.distance → ⊥) }
    {
        self.encoding.low() <= self.distance
            && self.distance <= self.encoding.high()
            && self.distance % E::granule() as i32 == 0
    }

    // Refuses what writing it has to refuse, where there is room for so many bytes.
    pub fn check(self, room: usize) -> Result<(), WriteFault>
        ensures { Judged (encode_table E.table self.encoding self.distance room) (refusal result) }
    {
        if !self.takes() {
            return Err(WriteFault::NotWritable);
        }
        if room < self.encoding.size() as usize {
            return Err(WriteFault::OutputShort);
        }
        Ok(())
    }
}

// How long the encodings of an instruction set are and how far they reach, by its table.
pub trait Extent: Copy {
    ghost table: { Table Self };

    // The number that every size and every distance is a multiple of.
    fn granule() -> u32
        ensures { result ≡ table.granule };

    // Its length in bytes.
    fn size(self) -> u32
        ensures { result ≡ table.size self };

    // The least distance that it reaches.
    fn low(self) -> i32
        ensures { result ≡ table.low self };

    // The greatest distance that it reaches.
    fn high(self) -> i32
        ensures { result ≡ table.high self };

    ghost extents: { ExtentLaws table };
}

// Which encodings each kind has, by the table, smallest first.
pub trait Listed: Extent {
    // How many encodings a kind has.
    fn forms(kind: u32) -> u32
        ensures { result ≡ length (Self.table.encodings kind) };

    // The encoding of a kind and a form.
    fn of(entry: Entry) -> Option<Self>
        ensures { result ≡ encoding Self.table entry.kind entry.form };

    // The kind and form whose encoding it is.
    fn entry(self) -> Option<Entry>
        ensures { Entered Self.table self result };
}

// The bytes of an encoding, by the table.
pub trait Encode: Listed {
    // Puts an encoding's bytes for a distance at the front of `out`, or refuses and leaves `out` as it was.
    fn write(spelled: Spelled<Self>, out: &mut [u8]) -> Result<(), WriteFault>
        ensures refuses { Judged (encode_table Self.table spelled.encoding spelled.distance (length out.old)) (refusal result) }
        ensures after { Encoded Self.table spelled.encoding spelled.distance out.old result out.new };

    // The encoding and distance of exactly these bytes, or that they are no branch.
    fn decode(bytes: &[u8]) -> Option<Spelled<Self>>
        ensures { Decoded Self.table bytes.now result };

    ghost laws: { KindLaws Self.table };
}

// An instruction set given by the table of its encodings.
pub trait InstructionSet {
    type Encoding: Encode;
}

impl<T: InstructionSet> Target for T {
    ghost meaning = { λ _. tabled T.Encoding.table };

    ghost lawful = { λ t. tabled_lawful T.Encoding.table T.Encoding.extents T.Encoding.laws };

    fn granule(&self) -> u32 {
        T::Encoding::granule()
    }

    fn forms(&self, kind: u32) -> u32 {
        T::Encoding::forms(kind)
    }

    fn size(&self, entry: Entry) -> u32 {
        T::Encoding::of(entry).map_or(0, |encoding| encoding.size())
    }

    fn low(&self, entry: Entry) -> i32 {
        T::Encoding::of(entry).map_or(0, |encoding| encoding.low())
    }

    fn high(&self, entry: Entry) -> i32 {
        T::Encoding::of(entry).map_or(0, |encoding| encoding.high())
    }

    fn write(&self, branch: Branch, out: &mut [u8]) -> Result<(), WriteFault> {
        if T::Encoding::forms(branch.kind) == 0 {
            return Err(WriteFault::UnknownKind);
        }
        let encoding = T::Encoding::of(branch.entry()).ok_or(WriteFault::NotWritable)?;
        let distance = branch.distance;
        T::Encoding::write(Spelled { encoding, distance }, out)
    }

    // The lemma is named here and not in a file of answers, so that a wrong body is refused by what reading promises.
    #[tactic(auto, using(crate::proofs::Tables::read_by))]
    fn read(&self, bytes: &[u8]) -> Option<Branch> {
        let Spelled { encoding, distance } = T::Encoding::decode(bytes)?;
        Some(encoding.entry()?.over(distance))
    }
}
