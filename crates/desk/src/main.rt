//! The settlement desk: runs a text script, one command to a line, and prints one answer line for each command.
//! The script is the file named as the first argument, or standard input.

#![tactic(auto)]

mod amounts;
mod command;
mod failure;
mod lines;
mod shares;
mod sheet;
mod words;
mod yuan;

use lines::run_line;
use std::{env, fs, io};

/// The whole script.
fn script(rt: &HostRuntime) -> io::Result<String> {
    let mut args = env::args(rt)?;
    match args.nth(1) {
        Some(path) => fs::read_to_string(rt, path.as_str()),
        None => io::read_to_string(rt.alloc(), rt.stdin()),
    }
}

fn run_script(rt: &HostRuntime) -> anyhow::Result<()> {
    let text = script(rt)?;
    for line in text.as_str().lines() {
        run_line(rt, line)?;
    }
    Ok(())
}

fn main(rt: HostRuntime) -> anyhow::Result<()> {
    run_script(&rt)
}
