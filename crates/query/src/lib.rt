// One question about one branch, and its answer: the library of the program `branch`.
#![tactic(auto)]

mod answers;
mod numbers;
mod queries;
mod texts;
mod words;

pub use answers::{Answer, answer_query};
pub use queries::{Query, understand};
pub use texts::reply;
