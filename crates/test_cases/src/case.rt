//! The lines of the table.
//!
//! Bytes are written as a text with a character for each, from U+0000 to U+00FF. A character from U+0100 on stands for the run at its place among `runs`.
use crate::fault::Fault;
use json_objects::other_member;
use serde_json::Value;
use std::alloc::Global;

const MEMBERS_OF_A_CASE: [&str; 13] = [
    "name",
    "words",
    "files",
    "gears",
    "replies",
    "runs",
    "bad_reads",
    "bad_opens",
    "bad_writes",
    "bad_exchanges",
    "cut",
    "in_order",
    "tells",
];

const MEMBERS_OF_A_GEAR: [&str; 7] = [
    "connections",
    "moments",
    "draws",
    "bad_accepts",
    "bad_reads",
    "bad_writes",
    "rooms",
];

/// A command, and the world in which it is run. A list that its line doesn't have is empty.
#[derive(Clone, Copy)]
pub struct Case<'a> {
    /// What the case shows.
    pub name: &'a Value,
    /// The words after the program's name.
    pub words: &'a [Value],
    /// The files, each with its name and its bytes.
    pub files: &'a [Value],
    /// The gears at the address `a`.
    pub gears: &'a [Value],
    /// What comes back over the link to the address `a`, one reply after another.
    pub replies: &'a [Value],
    /// Long parts of the bytes of this case: bytes, and how often they come one behind another.
    pub runs: &'a [Value],
    /// For each file, the numbers of its reads that fail. As everywhere here calls are counted from 1, and none fails where a list is too short.
    pub bad_reads: &'a [Value],
    /// The numbers of the openings that fail.
    pub bad_opens: &'a [Value],
    /// The numbers of the writes to standard output that fail.
    pub bad_writes: &'a [Value],
    /// The numbers of the exchanges over the link that fail.
    pub bad_exchanges: &'a [Value],
    /// Whether the case is run for each beginning of the connections' bytes instead, from none of them to all.
    pub cut: bool,
    /// Whether the connections of four gears come in one order: the first ones of all gears, then the second ones, and so on. The words aren't looked at then:
    /// it is `as` over the first file, with four workers.
    pub in_order: bool,
    /// Whether it is shown what a person is told, on standard error.
    pub tells: bool,
}

impl<'a> Case<'a> {
    pub fn read(line: &'a Value) -> Result<Case<'a>, Fault> {
        refuse_others(line, &MEMBERS_OF_A_CASE)?;
        Ok(Case {
            name: line.get("name").ok_or(Fault::NotACase)?,
            words: items(line, "words")?,
            files: items(line, "files")?,
            gears: items(line, "gears")?,
            replies: items(line, "replies")?,
            runs: items(line, "runs")?,
            bad_reads: items(line, "bad_reads")?,
            bad_opens: items(line, "bad_opens")?,
            bad_writes: items(line, "bad_writes")?,
            bad_exchanges: items(line, "bad_exchanges")?,
            cut: is_set(line, "cut")?,
            in_order: is_set(line, "in_order")?,
            tells: is_set(line, "tells")?,
        })
    }
}

/// The connections, moments and words of one worker. A list that it doesn't have is empty.
#[derive(Clone, Copy)]
pub struct GearCase<'a> {
    /// The bytes of each connection.
    pub connections: &'a [Value],
    /// What the clock gives, in seconds since 1970: one after another, and then the last one again. It gives 0 where there is none.
    pub moments: &'a [Value],
    /// What each draw gives, up to 48 words; the others are 0, and so are those of further draws.
    pub draws: &'a [Value],
    /// The numbers of the calls that ask for a connection and fail.
    pub bad_accepts: &'a [Value],
    /// For each connection, the numbers of its reads that fail.
    pub bad_reads: &'a [Value],
    /// For each connection, the numbers of its writes that fail.
    pub bad_writes: &'a [Value],
    /// For each connection, how many bytes can be written to it; 262,144 where the list is too short.
    pub rooms: &'a [Value],
}

impl<'a> GearCase<'a> {
    pub fn read(gear: &'a Value) -> Result<GearCase<'a>, Fault> {
        refuse_others(gear, &MEMBERS_OF_A_GEAR)?;
        Ok(GearCase {
            connections: items(gear, "connections")?,
            moments: items(gear, "moments")?,
            draws: items(gear, "draws")?,
            bad_accepts: items(gear, "bad_accepts")?,
            bad_reads: items(gear, "bad_reads")?,
            bad_writes: items(gear, "bad_writes")?,
            rooms: items(gear, "rooms")?,
        })
    }
}

fn refuse_others(object: &Value, names: &[&str]) -> Result<(), Fault> {
    match other_member(object, names) {
        None => Ok(()),
        Some(_) => Err(Fault::NotACase),
    }
}

// The items of the member of this name; none where there is no such member.
fn items<'a>(object: &'a Value, name: &str) -> Result<&'a [Value], Fault> {
    match object.get(name) {
        None => Ok(&[]),
        Some(list) => items_of(list),
    }
}

// Whether the member of this name is true; it isn't where there is no such member.
fn is_set(object: &Value, name: &str) -> Result<bool, Fault> {
    match object.get(name) {
        None => Ok(false),
        Some(value) => value.as_bool().ok_or(Fault::NotACase),
    }
}

/// The items of a list.
pub fn items_of(list: &Value) -> Result<&[Value], Fault> {
    match list {
        Value::Array(items) => Ok(items.as_slice()),
        _ => Err(Fault::NotACase),
    }
}

/// The two items of a list.
pub fn pair(list: &Value) -> Result<(&Value, &Value), Fault> {
    match items_of(list)? {
        [first, second] => Ok((first, second)),
        _ => Err(Fault::NotACase),
    }
}

pub fn text(value: &Value) -> Result<&str, Fault> {
    value.as_str().ok_or(Fault::NotACase)
}

pub fn number(value: &Value) -> Result<u64, Fault> {
    value.as_u64().ok_or(Fault::NotACase)
}

pub fn numbers(alloc: Global, values: &[Value]) -> Result<Vec<u64>, Fault> {
    let mut numbers = Vec::new(alloc);
    for value in values {
        numbers.push(number(value)?)?;
    }
    Ok(numbers)
}
