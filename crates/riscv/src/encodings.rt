// The table of branches: which encodings each has, and their sizes and reaches.
ghost use Rattle.std.specs.Prelude.{◌≡◌};
ghost use Rattle.std.specs.List.{slice_get};
ghost use Rattle.target.specs.Table.{of_form};
ghost use Rattle.riscv.specs.Encodings.{both, compressed as compressed_of, table};
ghost use Rattle.riscv.specs.Laws.{extents};
ghost use Rattle.riscv.specs.declared.kinds.Kind.TheVariants.{Conditional};

use crate::conditions::{Comparison, Condition};
use crate::kinds::Kind;
use crate::words::instructions::Instruction;
use target::{Entry, Extent, Listed};

// How a branch is made of instructions.
#[derive(Clone, Copy)]
pub enum Encoding {
    // an instruction by itself
    One(Instruction),
    // AUIPC and JALR, with the register that is given the return address and the one that they go through
    Far(u32, u32),
    // the inverse condition over a JAL
    Long(Comparison),
}

// The 16-bit instruction for a condition, which knows x8 to x15 against x0 only.
fn compressed(comparison: Comparison) -> Option<Instruction>
    ensures { result ≡ compressed_of comparison }
{
    match (comparison.condition, comparison.first, comparison.second) {
        (Condition::Beq, first @ 8..=15, 0) => Some(Instruction::CBeqz(first)),
        (Condition::Bne, first @ 8..=15, 0) => Some(Instruction::CBnez(first)),
        _ => None,
    }
}

// The condition that a register compares with x0.
fn against_zero(condition: Condition, first: u32) -> Kind
    ensures { result ≡ Conditional (record { condition = condition; first = first; second = 0 }) }
{
    Kind::Conditional(Comparison {
        condition,
        first,
        second: 0,
    })
}

// The form of a condition's own branch: after the 16-bit one, where there is one.
fn own_form(comparison: Comparison) -> u32
    ensures { result ≡ of_form 0 (λ _. 1) (compressed_of comparison) }
{
    u32::from(compressed(comparison).is_some())
}

// The encoding of a condition in a form.
fn conditional(comparison: Comparison, form: u32) -> Option<Encoding>
    ensures { result ≡ slice_get (both comparison (compressed_of comparison)) form }
{
    match (compressed(comparison), form) {
        (Some(instruction), 0) => Some(Encoding::One(instruction)),
        (None, 0) | (Some(_), 1) => Some(Encoding::One(Instruction::Branch(comparison))),
        (None, 1) | (Some(_), 2) => Some(Encoding::Long(comparison)),
        _ => None,
    }
}

impl Extent for Encoding {
    ghost table = { table };

    ghost extents = { extents };

    fn granule() -> u32 {
        2
    }

    fn size(self) -> u32 {
        match self {
            Encoding::One(instruction) => instruction.size(),
            Encoding::Far(_, _) | Encoding::Long(_) => 8,
        }
    }

    fn low(self) -> i32 {
        match self {
            Encoding::One(instruction) => -(instruction.reach() as i32),
            Encoding::Far(_, _) => -33_554_432,
            Encoding::Long(_) => -1_048_572,
        }
    }

    fn high(self) -> i32 {
        match self {
            Encoding::One(instruction) => instruction.reach() as i32 - 2,
            Encoding::Far(_, _) => 33_554_431,
            Encoding::Long(_) => 1_048_578,
        }
    }
}

impl Listed for Encoding {
    fn forms(kind: u32) -> u32 {
        match Kind::try_from(kind) {
            Ok(Kind::J | Kind::Call) => 3,
            Ok(Kind::Conditional(comparison)) => own_form(comparison) + 2,
            Err(_) => 0,
        }
    }

    fn of(entry: Entry) -> Option<Encoding> {
        match (Kind::try_from(entry.kind).ok()?, entry.form) {
            (Kind::J, 0) => Some(Encoding::One(Instruction::CJ)),
            (Kind::J, 1) => Some(Encoding::One(Instruction::Jal(0))),
            (Kind::J, 2) => Some(Encoding::Far(0, 6)),
            (Kind::Call, 0) => Some(Encoding::One(Instruction::CJal)),
            (Kind::Call, 1) => Some(Encoding::One(Instruction::Jal(1))),
            (Kind::Call, 2) => Some(Encoding::Far(1, 1)),
            (Kind::J | Kind::Call, _) => None,
            (Kind::Conditional(comparison), form) => conditional(comparison, form),
        }
    }

    // Inlined, since reading asks it twice: whether there is one before a row is compared, and which after.
    #[inline(always)]
    fn entry(self) -> Option<Entry> {
        let (kind, form) = match self {
            Encoding::One(Instruction::CJ) => (Kind::J, 0),
            Encoding::One(Instruction::Jal(0)) => (Kind::J, 1),
            Encoding::Far(0, 6) => (Kind::J, 2),
            Encoding::One(Instruction::CJal) => (Kind::Call, 0),
            Encoding::One(Instruction::Jal(1)) => (Kind::Call, 1),
            Encoding::Far(1, 1) => (Kind::Call, 2),
            Encoding::One(Instruction::CBeqz(first @ 8..=15)) => (
                against_zero(Condition::Beq, first),
                0,
            ),
            Encoding::One(Instruction::CBnez(first @ 8..=15)) => (
                against_zero(Condition::Bne, first),
                0,
            ),
            Encoding::One(Instruction::Branch(comparison)) => (
                Kind::Conditional(comparison),
                own_form(comparison),
            ),
            Encoding::Long(comparison) => (Kind::Conditional(comparison), own_form(comparison) + 1),
            _ => return None,
        };
        Some(Entry {
            kind: kind.number()?,
            form,
        })
    }
}
