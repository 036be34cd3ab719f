// The kinds of branch, and the numbers that they have.
ghost use Rattle.std.specs.Prelude.{◌≡◌, ◌-◌, ◌/◌, ◌%◌, ◌<◌, ◌≤◌};
ghost use Rattle.std.specs.List.{slice_get};
ghost use Rattle.std.specs.Option.{ok_or};
ghost use Rattle.target.specs.declared.interface.WriteFault.TheVariants.{UnknownKind};
ghost use Rattle.riscv.specs.declared.kinds.Kind.TheVariants.{Conditional};
ghost use Rattle.riscv.specs.Encodings.{comparison as comparison_of, conditions};
ghost use Rattle.riscv.specs.Finding.{Numbered, kind};

use crate::conditions::{Comparison, Condition};
use target::WriteFault;

// What a branch does.
#[derive(Clone, Copy)]
pub enum Kind {
    J,
    Call,
    // it branches where this holds
    Conditional(Comparison),
}

// The number of beq with x0 and x0.
const FIRST_CONDITION: u32 = 4096;

// The conditions, in the order of their kinds.
const CONDITIONS: [Condition; 6] = [
    Condition::Beq,
    Condition::Bne,
    Condition::Blt,
    Condition::Bge,
    Condition::Bltu,
    Condition::Bgeu,
];

// The condition over registers that a number stands for.
fn comparison(number: u32) -> Option<Comparison>
    ensures { result ≡ comparison_of number }
{
    let number = number.checked_sub(FIRST_CONDITION)?;
    Some(Comparison {
        condition: *CONDITIONS.get((number / 1024) as usize)?,
        first: number / 32 % 32,
        second: number % 32,
    })
}

// The place of a condition among them: a match, since a search of the list would answer an `Option`, and that its `None` never comes would have to be shown.
fn place(condition: Condition) -> u32
    ensures few { result < 6 }
    ensures at { slice_get conditions result ≡ Some condition }
{
    match condition {
        Condition::Beq => 0,
        Condition::Bne => 1,
        Condition::Blt => 2,
        Condition::Bge => 3,
        Condition::Bltu => 4,
        Condition::Bgeu => 5,
    }
}

// The number with these digits.
fn digits(place: u32, first: u32, second: u32) -> u32
    requires { (place < 6) × (first < 32) × (second < 32) }
    ensures least { FIRST_CONDITION ≤ result }
    ensures place { (result - FIRST_CONDITION) / 1024 ≡ place }
    ensures first { (result - FIRST_CONDITION) / 32 % 32 ≡ first }
    ensures second { (result - FIRST_CONDITION) % 32 ≡ second }
{
    FIRST_CONDITION + 1024 * place + 32 * first + second
}

// The number that stands for a condition over registers.
fn number(comparison: Comparison) -> Option<u32>
    ensures { Numbered (Conditional comparison) result }
{
    let Comparison {
        condition,
        first,
        second,
    } = comparison;
    (first < 32 && second < 32).then(|| digits(place(condition), first, second))
}

impl TryFrom<u32> for Kind {
    type Error = WriteFault;

    ghost try_from_gives = { λ number answer. answer ≡ ok_or (kind number) UnknownKind };

    fn try_from(number: u32) -> Result<Kind, WriteFault> {
        match number {
            0 => Ok(Kind::J),
            1 => Ok(Kind::Call),
            _ => comparison(number)
                .map(Kind::Conditional)
                .ok_or(WriteFault::UnknownKind),
        }
    }
}

impl Kind {
    // Its number, if it has one: no `From`, since a kind with a register past x31 has none.
    pub fn number(self) -> Option<u32>
        ensures { Numbered self result }
    {
        match self {
            Kind::J => Some(0),
            Kind::Call => Some(1),
            Kind::Conditional(comparison) => number(comparison),
        }
    }
}
