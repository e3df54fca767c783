//! What the authorization server says of itself.
ghost use Rattle.std.specs.Prelude.{◌≡◌, IfOk, IsUtf8};
ghost use Rattle.serde_json.specs.Written.{compact_text};
ghost use Rattle.gnap_replies.specs.Printing.{Printed, then_value, HasPrinted};
ghost use Rattle.gnap_replies.specs.Discovery.{client_discovery, server_discovery};

use crate::endpoints::print_place;
use crate::printer::Printer;
use bytes_and_lists::bytes::Bytes;
use bytes_and_lists::memory::Mem;
use std::alloc::Global;

fn print_for_client(alloc: Global, out: &mut Printer, base: &[u8])
    requires { IsUtf8 base.now }
    ensures { (p : Printed) → HasPrinted out.old p → HasPrinted out.new (then_value p (compact_text (client_discovery base.now))) }
{
    out.begin(b"{\"grant_request_endpoint\":");
    print_place(alloc, out, base, "/gnap");
    out.begin(b"\"interaction_finish_methods_supported\":");
    out.value(b"[\"redirect\",\"push\"]");
    out.begin(b"\"interaction_start_modes_supported\":");
    out.value(b"[\"redirect\",\"user_code\",\"user_code_uri\"]");
    out.begin(b"\"key_proofs_supported\":");
    out.value(b"[\"httpsig\"]");
    out.begin(b"\"key_rotation_supported\":");
    out.value(b"true");
    out.begin(b"\"sub_id_formats_supported\":");
    out.value(b"[\"opaque\"]");
    out.end(b'}');
}

fn print_for_server(alloc: Global, out: &mut Printer, base: &[u8])
    requires { IsUtf8 base.now }
    ensures { (p : Printed) → HasPrinted out.old p → HasPrinted out.new (then_value p (compact_text (server_discovery base.now))) }
{
    out.begin(b"{\"grant_request_endpoint\":");
    print_place(alloc, out, base, "/gnap");
    out.begin(b"\"introspection_endpoint\":");
    print_place(alloc, out, base, "/introspect");
    out.begin(b"\"key_proofs_supported\":");
    out.value(b"[\"httpsig\"]");
    out.begin(b"\"resource_registration_endpoint\":");
    print_place(alloc, out, base, "/resource");
    out.end(b'}');
}

/// The text of the answer to a client that asks what the server can do (RFC 9635, section 9), a compact JSON object.
pub fn print_client_discovery(alloc: Global, base: &[u8]) -> Result<Bytes, Mem>
    requires { IsUtf8 base.now }
    ensures { IfOk result (λ text. text ≡ compact_text (client_discovery base.now)) }
{
    let mut out = Printer::new(alloc);
    print_for_client(alloc, &mut out, base);
    out.into_bytes()
}

/// The same for a resource server (RFC 9767, section 3.1). It names the place where resource sets are registered, whether or not a server is there.
pub fn print_server_discovery(alloc: Global, base: &[u8]) -> Result<Bytes, Mem>
    requires { IsUtf8 base.now }
    ensures { IfOk result (λ text. text ≡ compact_text (server_discovery base.now)) }
{
    let mut out = Printer::new(alloc);
    print_for_server(alloc, &mut out, base);
    out.into_bytes()
}
