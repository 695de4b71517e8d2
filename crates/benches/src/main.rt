//! Work that `bench/run` times. The first word chooses it, and what is printed is what came of it:
//!
//! - `benches decimals COUNT`, so many coordinates read: the sum of them, in micrometres;
//! - `benches groups COUNT`, the pairs of so many small drawings read: how many pairs came;
//! - `benches drawings COUNT`, a long drawing read so often: how many segments came;
//! - `benches codes COUNT`, a long code read so often: how many moves came;
//! - `benches splits KIND COUNT STEP`, a drawing taken to its edges, graph or faces: how many edges, vertices or faces there are.
//!
//! Without words it does a little of each. Nothing stands on it.
#![tactic(auto)]

mod codes;
mod decimals;
mod drawings;
mod groups;
mod sample;
mod splits;

use anyhow::{Result, bail};
use std::alloc::Global;
use std::env;

/// A little of each.
const LITTLE: [&[&str]; 5] = [
    &["decimals", "1000"],
    &["groups", "3"],
    &["drawings", "1"],
    &["codes", "1"],
    &["splits", "grid", "10", "faces"],
];

/// What comes of these words.
fn answer_to(alloc: Global, words: &[&str]) -> Result<String> {
    let answer = match words {
        ["decimals", count] => format!(in alloc; "{}", decimals::sum_of(count.parse()?))?,
        ["groups", count] => format!(in alloc; "{}", groups::pairs_of(alloc, count.parse()?)?)?,
        ["drawings", count] => format!(in alloc;
            "{}",
            drawings::segments_of(alloc, count.parse()?)?
        )?,
        ["codes", count] => format!(in alloc; "{}", codes::moves_of(alloc, count.parse()?)?)?,
        ["splits", kind, count, step] => {
            format!(in alloc; "{}", splits::count_of(alloc, kind, count.parse()?, step)?)?
        }
        _ => bail!(
            "usage: benches decimals|groups|drawings|codes COUNT, or benches splits KIND COUNT STEP"
        ),
    };
    Ok(answer)
}

fn main(rt: HostRuntime) -> Result<()> {
    let alloc = rt.alloc();
    let args: Vec<String> = env::args(&rt)?.skip(1).collect(alloc)?;
    if args.is_empty() {
        for words in LITTLE {
            println!(rt; "{}", answer_to(alloc, words)?)?;
        }
        return Ok(());
    }
    let mut words = Vec::new(alloc);
    for arg in &args {
        words.push(arg.as_str())?;
    }
    println!(rt; "{}", answer_to(alloc, &words)?)?;
    Ok(())
}
