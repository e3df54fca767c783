//! What a person is told, on standard error, of a command that wasn't carried out. Whether it is written changes nothing else.
use bytes_and_lists::bytes::Bytes;
use command_inputs::{ConfigKind, Ended, WrongSetup};
use command_words::telling::{tell, tell_number, tell_shown};
use command_words::{Command, Service, WrongWords, explain_count, explain_name, explain_word};
use fault_places::FaultPlace;
use gnap_objects::{ObjectFault, SetupFault};
use outside::device::{Sink, write_all};
use std::fmt;
use std::fmt::Write;

// A sink as what words are written to.
#[derive(Drop)]
struct Said<'a, E> {
    err: &'a mut E,
}

impl<E: Sink> fmt::Write for Said<'_, E> {
    fn write_str(&mut self, text: &str) -> fmt::Result {
        match write_all(self.err, text.as_bytes()) {
            Ok(()) => Ok(()),
            Err(_) => Err(fmt::Error),
        }
    }
}

// Writes a fault in its own words, as far as they can be written.
fn tell_fault<E: Sink, F: fmt::Display>(err: &mut E, fault: &F) {
    let mut said = Said { err };
    let _written = write!(said, "{fault}");
}

// The form of a base address.
const BASE_FORM: &str =
    ": `http://` or `https://`, a host in lower case and no default port, without `/` at the end";

// The form of an array of rights.
const RIGHTS_FORM: &str =
    ": an array of rights, each a string or an object with `type` (docs/FORMATS.md, section 1)";

// How long the texts and arrays of rights may be.
const RIGHTS_LIMIT: &str =
    ": a reference or a type has 1 to 256 bytes, an array of a right 1 to 16 strings (docs/FORMATS.md, section 1)";

// The members of pairs and of one of them, each with its form.
static PAIR_FORMS: [(&str, &str); 3] = [
    ("pairs", ": an array of 1 to 256 objects"),
    (
        "client",
        ": the id of a key of the setup in the role `client`, which no other pair has",
    ),
    (
        "server",
        ": the id of a key of the setup in the role `server`",
    ),
];

// The members of a setup and of its parts, each with its form.
static FORMS: [(&str, &str); 16] = [
    ("base", BASE_FORM),
    ("front", BASE_FORM),
    ("server", BASE_FORM),
    ("resource", BASE_FORM),
    (
        "id",
        ": 1 to 64 letters, digits, `.`, `_` or `-`, which no other key has",
    ),
    ("secret", ": base64 with padding, of 16 to 64 bytes"),
    ("role", ": `client`, `server` or `front`"),
    ("auto", RIGHTS_FORM),
    ("ask", RIGHTS_FORM),
    ("serves", ": an array of strings"),
    ("keys", ": an array of objects"),
    (
        "routes",
        ": an array of objects, no two with one `method` and one `path`",
    ),
    ("method", ": 1 to 15 upper-case letters"),
    (
        "path",
        ": `/` and at most 2,047 bytes from 0x21 to 0x7E, and no other route has it with the same `method`",
    ),
    (
        "right",
        ": one right, a string or an object with `type` (docs/FORMATS.md, section 1)",
    ),
    ("text", ": a string"),
];

// The members that have a limit, each with how long it may be, or how many items it may have.
static LIMITS: [(&str, &str); 7] = [
    ("keys", ": 0 to 4,096 keys"),
    ("pairs", ": 1 to 256 pairs"),
    ("serves", ": 0 to 256 strings"),
    ("routes", ": 1 to 1,024 routes"),
    ("auto", RIGHTS_LIMIT),
    ("ask", RIGHTS_LIMIT),
    ("right", RIGHTS_LIMIT),
];

// What is said of the member of this name, and nothing where there is no such member.
fn said_of(members: &'static [(&'static str, &'static str)], name: &Bytes) -> &'static str {
    for &(member, words) in members {
        if member.as_bytes() == name.as_slice() {
            return words;
        }
    }
    ""
}

fn tell_member<E: Sink>(err: &mut E, kind: ConfigKind, fault: &ObjectFault) {
    let Some(name) = fault.member() else {
        return;
    };
    let form = match fault {
        ObjectFault::Wrong(_) => match kind {
            ConfigKind::Pairs => said_of(&PAIR_FORMS, name),
            _ => said_of(&FORMS, name),
        },
        ObjectFault::TooMany(_) => said_of(&LIMITS, name),
        _ => "",
    };
    tell(err, &[b"member `"]);
    tell_shown(err, name.as_slice());
    tell(err, &[b"` ", fault.words().as_bytes(), form.as_bytes()]);
}

// The file of a command whose text has to be of this kind, and what stands before its name. None where the command reads none.
fn config_of(command: &Command, kind: ConfigKind) -> Option<(&'static str, &Bytes)> {
    match command {
        Command::Replay(file) | Command::Field(_, file) => Some(("the first line of ", file)),
        Command::Serve(Service::Derivations(pairs), served) => match kind {
            ConfigKind::Pairs => Some(("", pairs)),
            _ => Some(("", &served.config)),
        },
        Command::Serve(_, served) => Some(("", &served.config)),
        Command::Sign(config, _, _, _, _)
        | Command::Verify(config, _, _)
        | Command::Rs(config, _, _, _, _)
        | Command::Client(config, _, _) => Some(("", config)),
        Command::Hash(_) | Command::Load(_, _, _) => None,
    }
}

// Which text isn't of its kind.
fn tell_no_setup<E: Sink>(err: &mut E, command: &Command, kind: ConfigKind) {
    let Some((front, file)) = config_of(command, kind) else {
        return;
    };
    tell(err, &[b"gnap: "]);
    tell(err, &[front.as_bytes()]);
    tell(err, &[file.as_slice()]);
    match kind {
        ConfigKind::Setup => tell(err, &[b" is no setup: "]),
        ConfigKind::Configuration => tell(err, &[b" is no configuration: "]),
        ConfigKind::Pairs => tell(err, &[b" has no pairs of the setup: "]),
    }
}

// Why a text isn't one JSON object with whole numbers.
fn tell_no_json<E: Sink>(err: &mut E, place: &FaultPlace) {
    match place {
        FaultPlace::Syntax { .. } | FaultPlace::NoObject | FaultPlace::Number => {
            tell_fault(err, place)
        }
        FaultPlace::Key(_) | FaultPlace::Unknown | FaultPlace::OutOfMemory => {
            tell_fault(err, &SetupFault::NotJson)
        }
    }
}

// Which key is at fault.
fn tell_key<E: Sink>(err: &mut E, number: usize, place: &FaultPlace) {
    tell(err, &[b", in the key "]);
    if let FaultPlace::Key(id) = place {
        tell(err, &[b"`"]);
        tell_shown(err, id.as_slice());
        tell(err, &[b"` "]);
    }
    tell(err, &[b"at place "]);
    tell_number(err, number);
    tell(err, &[b" of `keys`, counted from 0"]);
}

fn tell_setup<E: Sink>(err: &mut E, command: &Command, why: &WrongSetup) {
    let (WrongSetup::TooLong(kind) | WrongSetup::Faulty(kind, _, _)) = why;
    tell_no_setup(err, command, *kind);
    match why {
        WrongSetup::TooLong(_) => tell_fault(err, why),
        WrongSetup::Faulty(_, SetupFault::NotJson, place) => tell_no_json(err, place),
        WrongSetup::Faulty(_, SetupFault::InSetup(fault), _) => tell_member(err, *kind, fault),
        WrongSetup::Faulty(_, SetupFault::InKey(number, fault), place) => {
            tell_member(err, *kind, fault);
            tell_key(err, *number, place);
        }
        WrongSetup::Faulty(_, SetupFault::OutOfMemory, _) => {}
    }
    tell(err, &[b"\n"]);
}

fn tell_two<E: Sink>(err: &mut E, first: &Bytes, last: &Bytes) {
    tell(err, &[first.as_slice(), b" or ", last.as_slice()]);
}

fn tell_three<E: Sink>(err: &mut E, first: &Bytes, second: &Bytes, last: &Bytes) {
    tell(err, &[first.as_slice(), b", "]);
    tell_two(err, second, last);
}

// The files of a command, or what it makes without one.
fn tell_files<E: Sink>(err: &mut E, command: &Command) {
    match command {
        Command::Replay(file) | Command::Field(_, file) => tell(err, &[file.as_slice()]),
        Command::Sign(config, _, _, file, _) | Command::Verify(config, _, file) => {
            tell_two(err, config, file)
        }
        Command::Serve(service, served) => match service {
            Service::Derivations(pairs) => tell_three(err, &served.config, pairs, &served.listen),
            Service::Grants | Service::Sets => tell_two(err, &served.config, &served.listen),
        },
        Command::Rs(config, listen, server, _, _) => tell_three(err, config, server, listen),
        Command::Client(config, address, script) => tell_three(err, config, address, script),
        Command::Hash(_) => tell(err, &[b"the hash"]),
        Command::Load(_, _, _) => tell(err, &[b"the load"]),
    }
}

fn tell_refusal<E: Sink>(err: &mut E, command: &Command) {
    match command {
        Command::Replay(file) | Command::Field(_, file) => {
            tell(
                err,
                &[b"gnap: ", file.as_slice(), b" isn't a valid field\n"],
            )
        }
        Command::Sign(_, _, _, file, _) | Command::Verify(_, _, file) => tell(
            err,
            &[
                b"gnap: the message in ",
                file.as_slice(),
                b" is refused for what was printed\n",
            ],
        ),
        Command::Client(_, _, script) => tell(
            err,
            &[b"gnap: a line of ", script.as_slice(), b" wasn't ok\n"],
        ),
        // Nothing that they read is refused.
        Command::Serve(_, _)
        | Command::Rs(_, _, _, _, _)
        | Command::Hash(_)
        | Command::Load(_, _, _) => {}
    }
}

/// Tells what happened, where a command wasn't carried out.
pub fn explain<E: Sink>(err: &mut E, command: &Command, ended: &Ended) {
    let (front, back): (&[u8], &[u8]) = match ended {
        Ended::Done => return,
        Ended::NoSetup(why) => return tell_setup(err, command, why),
        Ended::Refused => return tell_refusal(err, command),
        Ended::Failed => (b"", b" can't be opened or read\n"),
        Ended::WriteFault => return tell(err, &[b"gnap: standard output can't be written\n"]),
        Ended::Memory => (b"memory ran out at ", b"\n"),
        Ended::TooLong => (b"1,073,741,824 bytes of ", b" were read without its end\n"),
    };
    tell(err, &[b"gnap: ", front]);
    tell_files(err, command);
    tell(err, &[back]);
}

/// Tells what is wrong with the words, where they are no command.
pub fn explain_words<E: Sink>(err: &mut E, words: &[String], wrong: WrongWords) {
    match wrong {
        WrongWords::NoCommand => explain_name(err, words),
        WrongWords::Count => explain_count(err, words),
        WrongWords::Word(place, form) => explain_word(err, words, place, form),
        WrongWords::OutOfMemory => {}
    }
}
