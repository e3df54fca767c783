//! Reads a table of JSON texts and prints what the readers of `gnap_objects` give of each line (`objects`).
//!
//! The lines and what must be printed stand in `expected/`, from where `expected/write.py` writes them by the rules of docs/ in another language, apart from
//! this code.
#![tactic(auto)]

mod objects;
mod repeated;
mod shown;

use std::alloc::AllocError;
use std::io;

fn main(rt: HostRuntime) -> io::Result<()> {
    for line in rt.lines(rt.alloc()) {
        match objects::answer(rt.alloc(), line?.as_str()) {
            Ok(text) => println!(rt; "{text}")?,
            Err(AllocError) => println!(rt; "out of memory")?,
        }
    }
    Ok(())
}
