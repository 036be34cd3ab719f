// x86 in 32-bit mode as a target.
#![tactic(auto)]

use target::InstructionSet;

mod encodings;
mod layout;
#[cfg(test)]
mod tests;

#[derive(Clone, Copy)]
pub struct X86;

impl InstructionSet for X86 {
    type Encoding = encodings::Encoding;
}
