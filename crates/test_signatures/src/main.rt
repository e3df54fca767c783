//! Reads three tables and prints what the libraries give of each line. A line of standard input is the word of its table, a space, and what the table says
//! of it:
//!
//! - `field`: the text of a structured field (`fields`);
//! - `signature`: a message that is verified or signed (`signatures`);
//! - `mark`: a message whose signature's mark is taken or written (`marks`).
//!
//! The lines and what must be printed stand in `expected/`, from where `expected/write.py` writes them: the first two tables as texts, and the third by hand
//! with signatures of another language.
#![tactic(auto)]

mod fields;
mod marks;
mod messages;
mod signatures;

use bytes_and_lists::memory::Mem;
use std::alloc::Global;
use std::io;

fn answer(alloc: Global, line: &str) -> Result<String, Mem> {
    let (table, text) = line.split_once(' ').unwrap_or((line, ""));
    match table {
        "field" => fields::answer(alloc, text),
        "signature" => signatures::answer(alloc, text),
        "mark" => marks::answer(alloc, text),
        _ => Ok(String::from_str(alloc, "no such table")?),
    }
}

fn main(rt: HostRuntime) -> io::Result<()> {
    for line in rt.lines(rt.alloc()) {
        match answer(rt.alloc(), line?.as_str()) {
            Ok(text) => println!(rt; "{text}")?,
            Err(Mem) => println!(rt; "out of memory")?,
        }
    }
    Ok(())
}
