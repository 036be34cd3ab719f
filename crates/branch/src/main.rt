// Reads lines from standard input, and prints for each what it asks of a branch and the answer.
#![tactic(auto)]

use query::reply;
use std::io::{BufRead, BufReader, Write};

fn answer_lines(rt: &HostRuntime) -> anyhow::Result<()> {
    let lines = BufReader::new(rt.alloc(), rt.stdin())?.split(rt.alloc(), b'\n');
    for line in lines {
        let answered = reply(rt.alloc(), line?.as_slice())?;
        rt.stdout().write_all(answered.as_slice())?;
    }
    Ok(())
}

fn main(rt: HostRuntime) -> anyhow::Result<()> {
    answer_lines(&rt)
}
