//! What a person is told, on standard error, of a line that is none of a script. Whether it is written changes nothing else.
use client_scripts::{LineFault, read_line};
use outside::device::{Sink, write_all};
use std::alloc::Global;

fn tell_fault<E: Sink>(alloc: Global, err: &mut E, number: u64, fault: &LineFault) {
    let LineFault::BadLine(why) = fault else {
        return;
    };
    if let Ok(text) = format!(in alloc; "gnap: line {number}: {why}\n") {
        let _written = write_all(err, text.as_bytes());
    }
}

/// Tells why the line of this number, counted from 1, is none of a script, where it is none: in one line, with names of members and no value.
pub(crate) fn explain_line<E: Sink>(alloc: Global, err: &mut E, number: u64, line: &[u8]) {
    match read_line(alloc, number, line) {
        Ok(step) => drop(step),
        Err(fault) => tell_fault(alloc, err, number, &fault),
    }
}
