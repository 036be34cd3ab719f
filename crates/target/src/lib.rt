// What an instruction set is to the assembler: its meaning, its laws and its calls.
#![tactic(auto)]

mod interface;
mod round_trip;
mod table;

pub use interface::{Branch, Entry, Target, WriteFault};
pub use round_trip::{read_then_write, write_then_read};
pub use table::{Encode, Extent, InstructionSet, Listed, Spelled};
