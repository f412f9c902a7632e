// boardgen: prints the text of a board that is computed. `boardgen pool Q` prints the pool board with
// Q buffers, or the line of its refusal.
#![tactic(auto)]

mod generate;

use generate::{names_pool, pool_text};
use std::env;
use std::io::Write;
use std::process::ExitCode;

const USAGE: &str = "usage: boardgen pool Q, with Q buffers from 1 to 7";

// The word in the place of Q, where the words are those that are known.
fn asked(rt: &HostRuntime) -> anyhow::Result<Option<String>> {
    let mut words = env::args(rt)?;
    let _name = words.next();
    let (Some(kind), Some(count), None) = (words.next(), words.next(), words.next()) else {
        return Ok(None);
    };
    Ok(names_pool(kind.as_str()).then_some(count))
}

fn print(rt: &HostRuntime, word: &str) -> anyhow::Result<()> {
    let text = pool_text(rt.alloc(), word)?;
    rt.stdout().write_all(text.as_slice())?;
    Ok(())
}

fn main(rt: HostRuntime) -> anyhow::Result<ExitCode> {
    let Some(word) = asked(&rt)? else {
        eprintln!(rt; "{USAGE}")?;
        return Ok(ExitCode::FAILURE);
    };
    print(&rt, word.as_str())?;
    Ok(ExitCode::SUCCESS)
}
