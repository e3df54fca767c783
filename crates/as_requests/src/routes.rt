//! The routes of the authorization server, and what their methods are for.
ghost use Rattle.std.specs.Prelude.{◌≡◌, Some, if◌then◌else◌, codes};
ghost use Rattle.std.specs.Str.{bytes_eq};
ghost use Rattle.structured_fields.specs.Named.{value_at};
ghost use Rattle.as_requests.specs.declared.routes.Purpose.TheVariants as purpose;
ghost use Rattle.as_requests.specs.Routes.{route_at, methods_of, allowed_methods};

use gnap_objects::CallKind;

/// What is served, each at a path of its own.
#[derive(Clone, Copy)]
pub enum Route {
    /// `/gnap`, where grants are asked for (RFC 9635, section 2).
    Grants,
    /// `/continue`, where a grant is continued, modified and cancelled (RFC 9635, section 5).
    Continuation,
    /// `/token`, where a token is rotated and revoked (RFC 9635, section 6).
    TokenManagement,
    /// `/introspect`, where resource servers ask about tokens (RFC 9767, section 3.3).
    Introspection,
    /// `/front/look`, where the consent front looks at an interaction (RFC 9635, section 4.1).
    FrontLook,
    /// `/front/code`, where it finds an interaction by its user code (RFC 9635, section 4.1.2).
    FrontCode,
    /// `/front/decide`, where it hands in what the user decided (RFC 9635, section 4).
    FrontDecide,
    /// `/.well-known/gnap-as-rs`, where resource servers learn of the server (RFC 9767, section 3.1).
    RsDiscovery,
}

/// What a method of a route is for.
#[derive(Clone, Copy)]
pub enum Purpose {
    /// A call of the machine. It has to be signed.
    Calls(CallKind),
    /// What the server says of itself to clients (RFC 9635, section 9). Nobody has to sign.
    Discovery,
    /// What the server says of itself to resource servers (RFC 9767, section 3.1). Nobody has to sign.
    RsDiscovery,
}

// What a method is for where this one is there, and else what it is for among the others.
fn named(method: &[u8], name: &[u8], purpose: Purpose, others: Option<Purpose>) -> Option<Purpose>
    ensures { result ≡ (if bytes_eq method.now name.now then Some purpose else others) }
{
    if method == name {
        Some(purpose)
    } else {
        others
    }
}

// What a method is for where `POST` is there for this call, and else what it is for among the others.
fn posted(method: &[u8], kind: CallKind, others: Option<Purpose>) -> Option<Purpose>
    ensures { result ≡ (if bytes_eq method.now (codes "POST") then Some (purpose.Calls kind) else others) }
{
    named(method, b"POST", Purpose::Calls(kind), others)
}

impl Route {
    /// The route with this path. None exactly where no route has it.
    pub fn at(path: &[u8]) -> Option<Route>
        ensures { result ≡ route_at path.now }
    {
        if path == b"/gnap".as_slice() {
            Some(Route::Grants)
        } else if path == b"/continue".as_slice() {
            Some(Route::Continuation)
        } else if path == b"/token".as_slice() {
            Some(Route::TokenManagement)
        } else if path == b"/introspect".as_slice() {
            Some(Route::Introspection)
        } else if path == b"/front/look".as_slice() {
            Some(Route::FrontLook)
        } else if path == b"/front/code".as_slice() {
            Some(Route::FrontCode)
        } else if path == b"/front/decide".as_slice() {
            Some(Route::FrontDecide)
        } else if path == b"/.well-known/gnap-as-rs".as_slice() {
            Some(Route::RsDiscovery)
        } else {
            None
        }
    }

    /// What this method of the route is for. None exactly where the route doesn't have it. Methods are told apart by case (RFC 9110, section 9.1).
    pub fn purpose(self, method: &[u8]) -> Option<Purpose>
        ensures { result ≡ value_at (methods_of self) method.now }
    {
        match self {
            Route::Grants => {
                let options = named(method, b"OPTIONS", Purpose::Discovery, None);
                posted(method, CallKind::Begin, options)
            }
            Route::Continuation => {
                let delete = named(method, b"DELETE", Purpose::Calls(CallKind::Cancel), None);
                let patch = named(method, b"PATCH", Purpose::Calls(CallKind::Modify), delete);
                posted(method, CallKind::Continue, patch)
            }
            Route::TokenManagement => {
                let delete = named(method, b"DELETE", Purpose::Calls(CallKind::Revoke), None);
                posted(method, CallKind::Rotate, delete)
            }
            Route::Introspection => posted(method, CallKind::Introspect, None),
            Route::FrontLook => posted(method, CallKind::Look, None),
            Route::FrontCode => posted(method, CallKind::FindCode, None),
            Route::FrontDecide => posted(method, CallKind::Decide, None),
            Route::RsDiscovery => named(method, b"GET", Purpose::RsDiscovery, None),
        }
    }

    /// The methods of the route with `, ` between them, as the field `Allow` lists them (RFC 9110, section 10.2.1).
    pub fn allowed_methods(self) -> &'static str
        ensures { result.now ≡ allowed_methods self }
    {
        match self {
            Route::Grants => "POST, OPTIONS",
            Route::Continuation => "POST, PATCH, DELETE",
            Route::TokenManagement => "POST, DELETE",
            Route::Introspection | Route::FrontLook | Route::FrontCode | Route::FrontDecide =>
                "POST",
            Route::RsDiscovery => "GET",
        }
    }
}
