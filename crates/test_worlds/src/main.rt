//! Runs commands of the program over worlds in memory, by a table.
//!
//! Each line of standard input is a JSON object, a world and the words of a command, and a line of standard output tells what came of it; `case` of
//! `test_cases` has their forms.
//!
//! The table and what must be printed are written by `expected/write.py`, by the rules of docs/ in another language, apart from this code.
#![tactic(auto)]

mod runs;

use crate::runs::outcome_line;
use std::io;
use std::io::{BufRead, BufReader};

fn main(rt: HostRuntime) -> io::Result<()> {
    for line in BufReader::new(rt.alloc(), rt.reader())?.lines(rt.alloc()) {
        match outcome_line(&rt, rt.alloc(), line?.as_str()) {
            Ok(text) => println!(rt; "{text}")?,
            Err(fault) => println!(rt; "{fault:?}")?,
        }
    }
    Ok(())
}
