// Instruction words as lists of fields, highest bits first.
ghost use Rattle.std.specs.Prelude.{◌≡◌, ◌%◌, ◌^◌, ◌<◌};
ghost use Rattle.riscv.specs.declared.words.Field.TheVariants.{Bits, Immediate};
ghost use Rattle.riscv.specs.Reading.{gathered, placed};
ghost use Rattle.riscv.specs.Words.{InWord, Laid, held, number, width as width_of};

pub mod instructions;
pub mod reading;

// A field of a word. `InWord` is asked by a `requires`: a ghost field would put a proof into every field of the formats in specs/, which are laid beside the manual's.
#[derive(Clone, Copy)]
pub enum Field {
    // so many bits, which hold this number
    Bits { count: u32, number: u32 },
    // the bits of the immediate from a high one to a low one
    Immediate { high: u32, low: u32 },
}

// The fields as the manual's formats write them: this many bits with this number, and imm[high:low].
fn bits(count: u32, number: u32) -> Field
    ensures { result ≡ Bits count number }
{
    Field::Bits { count, number }
}

fn imm(high: u32, low: u32) -> Field
    ensures { result ≡ Immediate high low }
{
    Field::Immediate { high, low }
}

// So many of a number's bits, the lowest.
fn low_bits(number: u32, count: u32) -> u32
    requires { count < 32 }
    ensures { result ≡ number % 2 ^ count }
{
    number % (1 << count)
}

impl Field {
    // How many bits it has.
    fn width(self) -> u32
        requires { InWord self }
        ensures { result ≡ width_of self }
    {
        match self {
            Field::Bits { count, .. } => count,
            Field::Immediate { high, low } => 1 + high - low,
        }
    }

    // What it holds.
    fn value(self, immediate: i32) -> u32
        requires { InWord self }
        ensures { result ≡ held immediate self }
    {
        match self {
            Field::Bits { count, number } => low_bits(number, count),
            Field::Immediate { high, low } => low_bits(
                (immediate >> low).cast_unsigned(),
                1 + high - low,
            ),
        }
    }

    // The field's bits, which are the lowest of these, at their place in the immediate.
    fn place(self, bits: u32) -> u32
        requires { InWord self }
        ensures { result ≡ placed self bits }
    {
        match self {
            Field::Bits { .. } => 0,
            Field::Immediate { high, low } => low_bits(bits, 1 + high - low) << low,
        }
    }
}

// The word with these fields and this immediate.
fn pack(fields: &[Field], immediate: i32) -> u32
    requires { Laid fields.now }
    ensures { result ≡ number fields.now immediate }
{
    let mut word = 0;
    for field in fields {
        word = (word << field.width()) + field.value(immediate);
    }
    word
}

// The bits of the immediate in a word, each at its place.
fn gather(fields: &[Field], mut word: u32) -> u32
    requires laid { Laid fields.now }
    requires small { gathered fields.now word < 2 ^ 32 }
    ensures { result ≡ gathered fields.now word }
{
    let mut immediate = 0;
    for field in fields.iter().rev() {
        immediate += field.place(word);
        word >>= field.width();
    }
    immediate
}
