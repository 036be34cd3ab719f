// Words taken apart: the instruction that a word can be, with the immediate that it then holds.
ghost use Rattle.std.specs.Prelude.{◌≡◌, ◌<◌, ◌≤◌, Some};
ghost use Rattle.riscv.specs.Finding.{step};
ghost use Rattle.riscv.specs.Reading.{cut as cut_of, half as half_of, whole as whole_of};

use super::low_bits;
use crate::conditions::{Comparison, Condition};
use crate::words::instructions::{Instruction, Step};

// The bits of a word from a high one to a low one.
fn cut(word: u32, high: u32, low: u32) -> u32
    requires { (low ≤ high) × (high < 31) }
    ensures { result ≡ cut_of word high low }
{
    low_bits(word >> low, 1 + high - low)
}

impl Instruction {
    // The instruction that a word of 16 bits can be.
    fn half(word: u32) -> Option<Instruction>
        ensures { result ≡ half_of word }
    {
        let first = 8 + cut(word, 9, 7);
        match cut(word, 15, 13) {
            0b101 => Some(Instruction::CJ),
            0b001 => Some(Instruction::CJal),
            0b110 => Some(Instruction::CBeqz(first)),
            0b111 => Some(Instruction::CBnez(first)),
            _ => None,
        }
    }

    // The instruction that a word of 32 bits can be.
    fn whole(word: u32) -> Option<Instruction>
        ensures { result ≡ whole_of word }
    {
        let rd = cut(word, 11, 7);
        let first = cut(word, 19, 15);
        match cut(word, 6, 0) {
            0b110_1111 => Some(Instruction::Jal(rd)),
            0b110_0011 => Some(Instruction::Branch(Comparison {
                condition: Condition::of(cut(word, 14, 12))?,
                first,
                second: cut(word, 24, 20),
            })),
            0b001_0111 => Some(Instruction::Auipc(rd)),
            0b110_0111 => Some(Instruction::Jalr(rd, first)),
            _ => None,
        }
    }
}

impl Step {
    // A word's instruction, with the immediate that the word holds for it.
    // Inlined, since the pair is handed back through memory otherwise.
    #[inline(always)]
    fn of(instruction: Instruction, word: u32) -> Step
        ensures { step word (Some instruction) ≡ Some result }
    {
        Step {
            instruction,
            immediate: instruction.immediate(word),
        }
    }

    // What a word of 16 bits can be.
    pub fn half(word: u32) -> Option<Step>
        ensures { result ≡ step word (half_of word) }
    {
        Some(Step::of(Instruction::half(word)?, word))
    }

    // What a word of 32 bits can be.
    pub fn whole(word: u32) -> Option<Step>
        ensures { result ≡ step word (whole_of word) }
    {
        Some(Step::of(Instruction::whole(word)?, word))
    }
}
