// The instructions that branches are made of, the words that they are, and the immediates that their words hold.
ghost use Rattle.std.specs.Prelude.{◌≡◌, ◌*◌, ◌^◌, ◌<◌};
ghost use Rattle.std.specs.Fn.{FnOnceReturnsAt, FnOnceTakesAt};
ghost use Rattle.riscv.specs.declared.words.instructions.Instruction.TheVariants.{Auipc, Branch, Jal, Jalr};
ghost use Rattle.riscv.specs.Instructions.{branch_format as branch_format_of, jump_format as jump_format_of, layout, reach as reach_of, size as size_of, word as word_of};
ghost use Rattle.riscv.specs.Reading.{immediate as immediate_of, twos_complement};

use super::{Field, bits, gather, imm, pack};
use crate::conditions::Comparison;

// An instruction without its immediate. Registers stand in the order in which they are written.
#[derive(Clone, Copy)]
pub enum Instruction {
    CJ,
    CJal,
    CBeqz(u32),
    CBnez(u32),
    Jal(u32),
    Branch(Comparison),
    Auipc(u32),
    Jalr(u32, u32),
}

// C.J and C.JAL, by their funct3.
fn jump_format(funct: u32) -> [Field; 10]
    ensures { result ≡ jump_format_of funct }
{
    [
        bits(3, funct),
        imm(11, 11),
        imm(4, 4),
        imm(9, 8),
        imm(10, 10),
        imm(6, 6),
        imm(7, 7),
        imm(3, 1),
        imm(5, 5),
        bits(2, 0b01),
    ]
}

// C.BEQZ and C.BNEZ, by their funct3.
fn branch_format(funct: u32, first: u32) -> [Field; 8]
    ensures { result ≡ branch_format_of funct first }
{
    [
        bits(3, funct),
        imm(8, 8),
        imm(4, 3),
        bits(3, first.saturating_sub(8)),
        imm(7, 6),
        imm(2, 1),
        imm(5, 5),
        bits(2, 0b01),
    ]
}

fn jal(rd: u32) -> [Field; 6]
    ensures { result ≡ layout (Jal rd) }
{
    [
        imm(20, 20),
        imm(10, 1),
        imm(11, 11),
        imm(19, 12),
        bits(5, rd),
        bits(7, 0b110_1111),
    ]
}

fn branch(comparison: Comparison) -> [Field; 8]
    ensures { result ≡ layout (Branch comparison) }
{
    [
        imm(12, 12),
        imm(10, 5),
        bits(5, comparison.second),
        bits(5, comparison.first),
        bits(3, comparison.condition.funct3()),
        imm(4, 1),
        imm(11, 11),
        bits(7, 0b110_0011),
    ]
}

fn auipc(rd: u32) -> [Field; 3]
    ensures { result ≡ layout (Auipc rd) }
{
    [imm(19, 0), bits(5, rd), bits(7, 0b001_0111)]
}

fn jalr(rd: u32, base: u32) -> [Field; 5]
    ensures { result ≡ layout (Jalr rd base) }
{
    [
        imm(11, 0),
        bits(5, base),
        bits(3, 0b000),
        bits(5, rd),
        bits(7, 0b110_0111),
    ]
}

// The number from minus the reach to below the reach whose two's complement this is.
fn signed(bits: u32, reach: u32) -> i32
    requires few { bits < 2 * reach }
    requires small { reach < 2 ^ 30 }
    ensures { result ≡ twos_complement reach bits }
{
    if bits < reach {
        bits as i32
    } else {
        -((2 * reach - bits) as i32)
    }
}

impl Instruction {
    // Its length in bytes.
    pub fn size(self) -> u32
        ensures { result ≡ size_of self }
    {
        match self {
            Instruction::CJ | Instruction::CJal | Instruction::CBeqz(_) | Instruction::CBnez(_) =>
                2,
            Instruction::Jal(_)
            | Instruction::Branch(_)
            | Instruction::Auipc(_)
            | Instruction::Jalr(_, _) => 4,
        }
    }

    // Its immediate runs from minus this number to below it.
    pub fn reach(self) -> u32
        ensures { result ≡ reach_of self }
    {
        match self {
            Instruction::CJ | Instruction::CJal | Instruction::Jalr(_, _) => 2_048,
            Instruction::CBeqz(_) | Instruction::CBnez(_) => 256,
            Instruction::Jal(_) => 1_048_576,
            Instruction::Branch(_) => 4_096,
            Instruction::Auipc(_) => 524_288,
        }
    }

    // What `f` makes of its fields.
    fn with_layout<F: FnOnce(&[Field]) -> u32>(self, f: F) -> u32
        requires { FnOnceTakesAt F.FnOnce f (layout self) }
        ensures { FnOnceReturnsAt F.FnOnce f (layout self) result }
    {
        match self {
            Instruction::CJ => f(&jump_format(0b101)),
            Instruction::CJal => f(&jump_format(0b001)),
            Instruction::CBeqz(first) => f(&branch_format(0b110, first)),
            Instruction::CBnez(first) => f(&branch_format(0b111, first)),
            Instruction::Jal(rd) => f(&jal(rd)),
            Instruction::Branch(comparison) => f(&branch(comparison)),
            Instruction::Auipc(rd) => f(&auipc(rd)),
            Instruction::Jalr(rd, base) => f(&jalr(rd, base)),
        }
    }

    // The instruction with an immediate, as one number.
    pub fn word(self, immediate: i32) -> u32
        ensures { result ≡ word_of self immediate }
    {
        self.with_layout(|fields| pack(fields, immediate))
    }

    // The immediate that its word holds.
    pub fn immediate(self, word: u32) -> i32
        ensures { result ≡ immediate_of self word }
    {
        let bits = self.with_layout(|fields| gather(fields, word));
        signed(bits, self.reach())
    }
}

// An instruction with its immediate.
#[derive(Clone, Copy)]
pub struct Step {
    pub instruction: Instruction,
    pub immediate: i32,
}
