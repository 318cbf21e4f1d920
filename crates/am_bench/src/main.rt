//! Does what messages, settling and stores cost, so often as its arguments say, for the scripts in `bench/`, which time
//! it.
#![tactic(auto)]

mod messages;
mod settling;
mod store;

use anyhow::{Context, Result, bail};
use std::env;

fn main(rt: HostRuntime) -> Result<()> {
    let alloc = rt.alloc();
    let words: Vec<String> = env::args(&rt)?.skip(1).collect(alloc)?;
    let Some((part, words)) = words.split_first() else {
        bail!("messages, settling or store");
    };
    let done = match part.as_str() {
        "messages" => messages::run(alloc, words)?,
        "settling" => settling::run(alloc, words)?,
        "store" => store::run(&rt, words)?,
        _ => bail!("messages, settling or store"),
    };
    println!(rt; "{done}")?;
    Ok(())
}

/// A number among the words.
fn number(words: &[String], place: usize) -> Result<u32> {
    let word = words.get(place).context("a number is lacking")?;
    Ok(word.as_str().parse::<u32>()?)
}
