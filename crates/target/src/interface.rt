// The target interface: one fixed meaning, and calls that answer from it and their arguments alone.
ghost use Rattle.std.specs.Prelude.{◌≡◌, length};
ghost use Rattle.target.specs.Meaning.{Meaning, Lawful};
ghost use Rattle.target.specs.Refusals.{Judged, Reading, Written, code as code_of, refusal, write_table};

// A form of a kind.
#[derive(Clone, Copy, PartialEq, Eq, Debug)]
pub struct Entry {
    pub kind: u32,
    pub form: u32,
}

impl Entry {
    // The branch in this form over a distance.
    pub fn over(self, distance: i32) -> Branch
        ensures { result ≡ record { kind = self.kind; form = self.form; distance = distance } }
    {
        Branch {
            kind: self.kind,
            form: self.form,
            distance,
        }
    }
}

// A branch by its kind, the form that it takes and the distance from its first byte to its label.
#[derive(Clone, Copy, PartialEq, Eq, Debug)]
pub struct Branch {
    pub kind: u32,
    pub form: u32,
    pub distance: i32,
}

impl Branch {
    // Its kind and form.
    pub fn entry(self) -> Entry
        ensures { result ≡ record { kind = self.kind; form = self.form } }
    {
        let Branch { kind, form, .. } = self;
        Entry { kind, form }
    }
}

// Why a branch was not written.
#[derive(Clone, Copy, PartialEq, Eq, Debug)]
pub enum WriteFault {
    // The target has no such kind.
    UnknownKind = 6,
    // The kind has no such form, or the distance is out of its reach or off the granule.
    NotWritable = 14,
    // The memory handed over is shorter than the form.
    OutputShort = 13,
}

impl WriteFault {
    // The number by which it is known.
    pub fn code(self) -> u32
        ensures { result ≡ code_of self }
    {
        self as u32
    }
}

pub trait Target {
    ghost meaning: { Self → Meaning };

    // The number that every size and every distance is a multiple of.
    fn granule(&self) -> u32
        ensures { result ≡ (meaning self.now).granule };

    // How many forms a kind has: none when it is unknown.
    fn forms(&self, kind: u32) -> u32
        ensures { result ≡ (meaning self.now).forms kind };

    // The length of a form in bytes, or 0 where there is no such form.
    fn size(&self, entry: Entry) -> u32
        ensures { result ≡ (meaning self.now).size entry.kind entry.form };

    // The least distance that a form reaches, or 0 where there is no such form.
    fn low(&self, entry: Entry) -> i32
        ensures { result ≡ (meaning self.now).low entry.kind entry.form };

    // The greatest distance that a form reaches, or 0 where there is no such form.
    fn high(&self, entry: Entry) -> i32
        ensures { result ≡ (meaning self.now).high entry.kind entry.form };

    // Puts a branch's bytes at the front of `out`, or refuses and leaves `out` as it was.
    fn write(&self, branch: Branch, out: &mut [u8]) -> Result<(), WriteFault>
        ensures refuses { Judged (write_table (meaning self.now) branch (length out.old)) (refusal result) }
        ensures after { Written (meaning self.now) branch out.old result out.new };

    // The branch whose bytes these are, all of them and no more, or that there is none.
    fn read(&self, bytes: &[u8]) -> Option<Branch>
        ensures { Reading (meaning self.now) bytes.now result };

    ghost lawful: { (t : Self) → Lawful (meaning t) };
}
