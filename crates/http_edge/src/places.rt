//! Where a reader of a request head stands, byte by byte.
ghost use Rattle.std.specs.Prelude.{◌≡◌, fold};
ghost use Rattle.http_edge.specs.declared.places.RequestPlace.TheVariants.{BlankLines};
ghost use Rattle.http_edge.specs.Steps.{next_place, is_target, next_line_place, is_behind_head};

use httparse::is_method_token;

/// A place in front of a request target, or in it.
#[derive(Clone, Copy)]
pub enum RequestPlace {
    /// Between empty lines before the request line.
    BlankLines,
    /// Behind the CR of such a line.
    BehindCr,
    Method,
    Target,
    Elsewhere,
}

/// A place among the lines of a head.
#[derive(Clone, Copy)]
pub enum LinePlace {
    /// In empty lines before the request line.
    BlankLines,
    InLine,
    LineStart,
    /// Behind a CR at the start of a line.
    StartBehindCr,
    /// Behind the empty line that ends the head.
    BehindHead,
}

fn next_place(place: RequestPlace, c: u8) -> RequestPlace
    ensures { result ≡ next_place place c }
{
    match place {
        RequestPlace::BlankLines => {
            if c == b'\n' {
                RequestPlace::BlankLines
            } else if c == b'\r' {
                RequestPlace::BehindCr
            } else if is_method_token(c) {
                RequestPlace::Method
            } else {
                RequestPlace::Elsewhere
            }
        }
        RequestPlace::BehindCr => {
            if c == b'\n' {
                RequestPlace::BlankLines
            } else {
                RequestPlace::Elsewhere
            }
        }
        RequestPlace::Method => {
            if is_method_token(c) {
                RequestPlace::Method
            } else if c == b' ' {
                RequestPlace::Target
            } else {
                RequestPlace::Elsewhere
            }
        }
        RequestPlace::Target => {
            if c != b' ' && c != b'\r' && c != b'\n' {
                RequestPlace::Target
            } else {
                RequestPlace::Elsewhere
            }
        }
        RequestPlace::Elsewhere => RequestPlace::Elsewhere,
    }
}

/// The bytes end inside a request target.
pub(crate) fn ends_in_target(bytes: &[u8]) -> bool
    ensures { result ≡ is_target (fold next_place BlankLines bytes.now) }
{
    let mut place = RequestPlace::BlankLines;
    for c in bytes {
        place = next_place(place, *c);
    }
    matches!(place, RequestPlace::Target)
}

fn next_line_place(place: LinePlace, c: u8) -> LinePlace
    ensures { result ≡ next_line_place place c }
{
    match place {
        LinePlace::BlankLines => {
            if c == b'\n' || c == b'\r' {
                LinePlace::BlankLines
            } else {
                LinePlace::InLine
            }
        }
        LinePlace::InLine => {
            if c == b'\n' {
                LinePlace::LineStart
            } else {
                LinePlace::InLine
            }
        }
        LinePlace::LineStart => {
            if c == b'\n' {
                LinePlace::BehindHead
            } else if c == b'\r' {
                LinePlace::StartBehindCr
            } else {
                LinePlace::InLine
            }
        }
        LinePlace::StartBehindCr => {
            if c == b'\n' {
                LinePlace::BehindHead
            } else {
                LinePlace::InLine
            }
        }
        LinePlace::BehindHead => LinePlace::BehindHead,
    }
}

/// The head is over.
pub(crate) fn is_behind_head(place: LinePlace) -> bool
    ensures { result ≡ is_behind_head place }
{
    matches!(place, LinePlace::BehindHead)
}

/// Where the bytes lead, from a place among lines.
pub(crate) fn line_place(place: LinePlace, bytes: &[u8]) -> LinePlace
    ensures { result ≡ fold next_line_place place bytes.now }
{
    let mut place = place;
    for c in bytes {
        place = next_line_place(place, *c);
    }
    place
}
