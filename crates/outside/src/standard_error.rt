//! What the system's adapters tell a person, each in a line on standard error. Whether it is written changes nothing else, and no clause speaks
//! of it. Nothing that came from a peer stands in it.
use crate::shared_listener::SharedListener;
use std::io;
use std::io::ErrorKind;

// A line on what has a name, and the cause at its end where the words before don't tell it.
fn tell(err: &impl Eprint, before: &str, name: &str, after: &str, cause: Option<&io::Error>) {
    let _ = match cause {
        Some(error) => eprintln!(err; "gnap: {before}`{name}`{after}: {error}"),
        None => eprintln!(err; "gnap: {before}`{name}`{after}"),
    };
}

/// Why a file can't be opened.
pub(crate) fn tell_unopened(err: &impl Eprint, path: &str, error: &io::Error) {
    let (before, after, cause) = match error.kind() {
        ErrorKind::NotFound => ("there is no file ", "", None),
        ErrorKind::PermissionDenied => ("the file ", " may not be read by this user", None),
        _ => ("the file ", " can't be opened", Some(error)),
    };
    tell(err, before, path, after, cause);
}

/// Why nothing listens at an address, or why it can't be reached.
pub(crate) fn tell_address(err: &impl Eprint, address: &str, error: &io::Error) {
    // What std finds itself, in the text or in a look-up, has no number of the system's.
    let is_of_system = error.raw_os_error().is_some();
    let (before, after, cause) = match error.kind() {
        ErrorKind::InvalidInput if !is_of_system => ("", " isn't of the form HOST:PORT", None),
        ErrorKind::Uncategorized if !is_of_system => {
            ("the host of ", " isn't found", Some(error))
        }
        ErrorKind::AddrInUse => ("the port of ", " is in use", None),
        ErrorKind::AddrNotAvailable => ("", " is no address of this machine", None),
        ErrorKind::PermissionDenied => {
            ("this user isn't permitted to use the port of ", "", None)
        }
        ErrorKind::ConnectionRefused => ("nothing listens at ", "", None),
        _ => ("the address ", " can't be used", Some(error)),
    };
    tell(err, before, address, after, cause);
}

/// Where workers listen, and how many.
pub(crate) fn tell_listening(
    err: &impl Eprint,
    listener: &SharedListener,
    workers: usize,
    quota: u32,
) {
    if let Ok(bound) = listener.address() {
        let _ = eprintln!(err;
            "gnap: listens at {bound} with {workers} workers, each for {quota} connections"
        );
    }
}

/// That a word is no text.
pub(crate) fn tell_no_text(err: &impl Eprint) {
    let _ = eprintln!(err; "gnap: a name of a file or an address isn't UTF-8");
}

/// That the system gave no random bytes.
pub(crate) fn tell_no_entropy(err: &impl Eprint) {
    let _ = eprintln!(err; "gnap: the system's random generator gave nothing");
}
