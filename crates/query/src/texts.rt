// The reply to a line.
ghost use Rattle.std.specs.Prelude.{[], IfOk, MatchResult, ◌≢◌};
ghost use Rattle.query.specs.Answers.{LineTakesMemory, Replied, Right, WithAnswer};
ghost use Rattle.query.specs.Words.{words};

use crate::answers::{Answer, answer_query};
use crate::queries::understand;
use crate::words::next_word;
use std::alloc::{AllocError, Global};
use x86::X86;

// The answer to a line, or that it is not understood.
fn answer_line(heap: Global, line: &[u8]) -> Result<Option<Answer>, AllocError>
    ensures { MatchResult result (λ a. Right line.now a) (λ _. LineTakesMemory line.now) }
{
    match understand(heap, line)? {
        Some(query) => answer_query(heap, &X86, query).map(Some),
        None => Ok(None),
    }
}

// A line, ` = `, its answer and a line end.
fn answered(heap: Global, line: &[u8]) -> Result<Vec<u8>, AllocError>
    ensures { IfOk result (λ out. WithAnswer line.now out.items) }
{
    let text = match answer_line(heap, line)? {
        Some(answer) => answer.to_string(heap)?,
        None => "not understood".to_string(heap)?,
    };
    // one request for all of it, so that the heap is not asked again as the line grows
    let mut out = Vec::with_capacity(heap, line.len().saturating_add(text.len() + 4))?;
    out.extend_from_slice(line)?;
    out.extend_from_slice(b" = ")?;
    out.extend_from_slice(text.as_bytes())?;
    out.push(b'\n')?;
    Ok(out)
}

// What is printed for a line: nothing where it is blank, else the line with its answer.
pub fn reply(heap: Global, line: &[u8]) -> Result<Vec<u8>, AllocError>
    ensures { MatchResult result (λ out. Replied line.now out.items) (λ _. words line.now ≢ []) }
{
    match next_word(line) {
        Some(_) => answered(heap, line),
        None => Ok(Vec::new(heap)),
    }
}
