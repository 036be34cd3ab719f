// RV32I with the C extension as a target.
#![tactic(auto)]

use target::InstructionSet;

mod conditions;
mod encodings;
mod finding;
mod kinds;
mod layout;
#[cfg(test)]
mod tests;
mod words;

#[derive(Clone, Copy)]
pub struct Riscv;

impl InstructionSet for Riscv {
    type Encoding = encodings::Encoding;
}
