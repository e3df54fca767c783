//! Replays histories over both cores of the grant machine, the list of notes and the tables, and compares what they print.
//!
//! Standard input has for each history the lines of a replay, the setup first, and an empty line behind them. For each a line of standard output tells how
//! many bytes both cores made the replay print, or that they differ.
//!
//! The histories and what must be printed are written by `expected/write.py` of `test_worlds`, by the rules of docs/ in another language, apart from this
//! code.
#![tactic(auto)]

mod history;

use crate::history::History;
use bytes_and_lists::memory::Mem;
use std::alloc::Global;
use std::io::{BufRead, BufReader};
use std::{io, mem};

// Takes a line, and gives what is told of the history that ends there; nothing where more lines belong to it.
fn taken(alloc: Global, history: &mut History, line: String) -> Result<Option<String>, Mem> {
    if line.is_empty() {
        let whole = mem::replace(history, History::new(alloc));
        return Ok(Some(whole.compared(alloc)?));
    }
    history.take(line)?;
    Ok(None)
}

fn main(rt: HostRuntime) -> io::Result<()> {
    let mut history = History::new(rt.alloc());
    for line in BufReader::new(rt.alloc(), rt.reader())?.lines(rt.alloc()) {
        match taken(rt.alloc(), &mut history, line?) {
            Ok(Some(text)) => println!(rt; "{text}")?,
            Ok(None) => {}
            Err(fault) => println!(rt; "{fault}")?,
        }
    }
    Ok(())
}
