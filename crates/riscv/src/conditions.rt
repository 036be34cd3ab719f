// Conditions over registers.
ghost use Rattle.std.specs.Prelude.{◌≡◌};
ghost use Rattle.riscv.specs.Instructions.{funct3 as funct3_of, inverse as inverse_of, inverted};
ghost use Rattle.riscv.specs.Reading.{condition as condition_of};

// What is asked of the two registers, by the mnemonic that asks it, with its funct3.
#[derive(Clone, Copy)]
pub enum Condition {
    Beq = 0,
    Bne = 1,
    Blt = 4,
    Bge = 5,
    Bltu = 6,
    Bgeu = 7,
}

impl Condition {
    // The number of the condition in a branch instruction.
    pub fn funct3(self) -> u32
        ensures { result ≡ funct3_of self }
    {
        self as u32
    }

    // The condition with this funct3: no `TryFrom`, since a condition has another number too, its place among the kinds, and callers and specs/ speak of funct3.
    pub fn of(funct3: u32) -> Option<Condition>
        ensures { result ≡ condition_of funct3 }
    {
        match funct3 {
            0 => Some(Condition::Beq),
            1 => Some(Condition::Bne),
            4 => Some(Condition::Blt),
            5 => Some(Condition::Bge),
            6 => Some(Condition::Bltu),
            7 => Some(Condition::Bgeu),
            _ => None,
        }
    }

    // The condition that holds when this one does not.
    fn inverse(self) -> Condition
        ensures { result ≡ inverse_of self }
    {
        match self {
            Condition::Beq => Condition::Bne,
            Condition::Bne => Condition::Beq,
            Condition::Blt => Condition::Bge,
            Condition::Bge => Condition::Blt,
            Condition::Bltu => Condition::Bgeu,
            Condition::Bgeu => Condition::Bltu,
        }
    }
}

// A condition over two registers.
#[derive(Clone, Copy)]
pub struct Comparison {
    pub condition: Condition,
    pub first: u32,
    pub second: u32,
}

impl Comparison {
    // The comparison that holds when this one does not.
    pub fn inverse(self) -> Comparison
        ensures { result ≡ inverted self }
    {
        Comparison {
            condition: self.condition.inverse(),
            ..self
        }
    }
}
