// boardfmt: reads a board text from standard input and prints the board's one text, or the line of its
// refusal. On standard error it says in words what was done.
#![tactic(auto)]

mod report;

use board_text::reformat;
use report::Report;
use std::io::{Read, Write};

// No board's text is longer than 36,366 bytes.
const MOST_INPUT: u64 = 40_000;

fn run(rt: &HostRuntime) -> anyhow::Result<()> {
    let heap = rt.alloc();
    let mut input = Vec::new(heap);
    rt.stdin().take(MOST_INPUT).read_to_end(&mut input)?;
    let done = reformat(heap, input.as_slice())?;
    rt.stdout().write_all(done.text.as_slice())?;
    let report = Report {
        bytes: input.len(),
        outcome: done.outcome,
    };
    eprintln!(rt; "boardfmt: {report}")?;
    Ok(())
}

fn main(rt: HostRuntime) -> anyhow::Result<()> {
    run(&rt)
}
