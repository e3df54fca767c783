//! The places that replies name.
ghost use Rattle.std.specs.Prelude.{◌≡◌, ◌++◌, IfOk, IsUtf8, string_bytes};
ghost use Rattle.json.specs.Print.{quoted};
ghost use Rattle.gnap_replies.specs.Printing.{Printed, then_value, HasPrinted};

use crate::printer::{Printer, is_plain};
use bytes_and_lists::memory::Mem;
use std::alloc::Global;

pub fn joined(alloc: Global, address: &[u8], path: &str) -> Result<String, Mem>
    requires { IsUtf8 address.now }
    ensures { IfOk result (λ s. string_bytes s ≡ address.now ++ path.now) }
{
    let address = unsafe { str::from_utf8_unchecked(address) };
    let mut uri = String::with_capacity(alloc, address.len() + path.len())?;
    uri.push_str(address)?;
    uri.push_str(path)?;
    Ok(uri)
}

/// The place with this path below the address.
pub fn print_place(alloc: Global, out: &mut Printer, address: &[u8], path: &str)
    requires { IsUtf8 address.now }
    ensures { (p : Printed) → HasPrinted out.old p → HasPrinted out.new (then_value p (quoted (address.now ++ path.now))) }
{
    if is_plain(address) && is_plain(path.as_bytes()) {
        out.plain_pair(address, path.as_bytes());
        return;
    }
    match joined(alloc, address, path) {
        Ok(uri) => out.word(uri.as_str()),
        Err(Mem) => out.starve(),
    }
}
