//! Runs calls on a store and a rewriter, one a line, and prints what each answers.

#![tactic(auto)]

mod bench;
mod calls_read;
mod show;
mod words;

use crate::bench::Bench;
use orders::line::is_blank;
use std::io;

/// Runs the calls that `text` tells, a line each.
fn run(rt: &HostRuntime, text: &str) -> io::Result<()> {
    let heap = rt.alloc();
    let mut bench = Bench::new(heap)?;
    for line in text.lines().filter(|line| !is_blank(line)) {
        match line.split_whitespace().next() {
            Some("new") => {
                bench = Bench::new(heap)?;
                println!(rt; "new")?;
            }
            _ => {
                let answer = bench.run(line)?;
                println!(rt; "{line}: {answer}")?;
            }
        }
    }
    Ok(())
}

fn main(rt: HostRuntime) -> io::Result<()> {
    let Ok(text) = io::read_to_string(rt.alloc(), rt.stdin()) else {
        return println!(rt; "no text");
    };
    run(&rt, text.as_str())
}
