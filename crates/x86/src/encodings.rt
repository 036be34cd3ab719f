// The table of branch instructions: which encodings each has, their sizes and reaches, and whose each is.
ghost use Rattle.x86.specs.Encodings.{table};
ghost use Rattle.x86.specs.Laws.{extents};

use target::{Entry, Extent, Listed};

// The kinds after the sixteen conditional jumps. A conditional jump's kind is the number that its opcodes add: an enum of kinds would have sixteen cases more, or hold that number and bound it again.
const JMP: u32 = 16;

const CALL: u32 = 17;

const JECXZ: u32 = 18;

// The layout of an instruction with its opcode byte.
#[derive(Clone, Copy)]
pub enum Encoding {
    // opcode, 8-bit displacement
    Short(u8),
    // opcode, 32-bit displacement
    Near(u8),
    // 0F, opcode, 32-bit displacement
    Escaped(u8),
}

impl Extent for Encoding {
    ghost table = { table };

    ghost extents = { extents };

    fn granule() -> u32 {
        1
    }

    fn size(self) -> u32 {
        match self {
            Encoding::Short(_) => 2,
            Encoding::Near(_) => 5,
            Encoding::Escaped(_) => 6,
        }
    }

    fn low(self) -> i32 {
        match self {
            Encoding::Short(_) => -126,
            Encoding::Near(_) | Encoding::Escaped(_) => -33_554_432,
        }
    }

    fn high(self) -> i32 {
        match self {
            Encoding::Short(_) => 129,
            Encoding::Near(_) | Encoding::Escaped(_) => 33_554_431,
        }
    }
}

impl Listed for Encoding {
    fn forms(kind: u32) -> u32 {
        match kind {
            0..=15 | JMP => 2,
            CALL | JECXZ => 1,
            _ => 0,
        }
    }

    fn of(entry: Entry) -> Option<Encoding> {
        match (entry.kind, entry.form) {
            (condition @ 0..=15, 0) => Some(Encoding::Short(0x70 + condition as u8)),
            (condition @ 0..=15, 1) => Some(Encoding::Escaped(0x80 + condition as u8)),
            (JMP, 0) => Some(Encoding::Short(0xeb)),
            (JMP, 1) => Some(Encoding::Near(0xe9)),
            (CALL, 0) => Some(Encoding::Near(0xe8)),
            (JECXZ, 0) => Some(Encoding::Short(0xe3)),
            _ => None,
        }
    }

    fn entry(self) -> Option<Entry> {
        let (kind, form) = match self {
            Encoding::Short(op @ 0x70..=0x7f) => (u32::from(op - 0x70), 0),
            Encoding::Escaped(op @ 0x80..=0x8f) => (u32::from(op - 0x80), 1),
            Encoding::Short(0xeb) => (JMP, 0),
            Encoding::Near(0xe9) => (JMP, 1),
            Encoding::Near(0xe8) => (CALL, 0),
            Encoding::Short(0xe3) => (JECXZ, 0),
            _ => return None,
        };
        Some(Entry { kind, form })
    }
}
