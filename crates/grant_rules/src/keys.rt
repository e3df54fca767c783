//! What the setup says of a key.
ghost use Rattle.std.specs.Prelude.{◌≡◌, List, []};
ghost use Rattle.gnap_model.specs.Keys.{key_of, client_rights, server_names as names_of_server};
ghost use Rattle.gnap_model.specs.Manage.{can_bind as token_can_bind};

use gnap_model::objects::{Role, Setup};
use gnap_model::rights::{Names, Rights};

/// The rights that a client has at once, and those for which the user is asked.
#[derive(Clone, Copy)]
pub struct ClientRights<'a> {
    /// At once.
    pub auto: &'a Rights,
    /// By asking the user.
    pub ask: &'a Rights,
}

/// The rights of a client; a key that is no client's has `none`.
pub fn rights_of_client<'a>(setup: &'a Setup, id: &[u8], none: &'a Rights) -> ClientRights<'a>
    requires { none.now ≡ [] }
    ensures auto { result.auto.now ≡ client_rights (λ k. k.auto_rights) (key_of setup.now id.now) }
    ensures ask { result.ask.now ≡ client_rights (λ k. k.ask_rights) (key_of setup.now id.now) }
{
    match setup.key(id) {
        Some(row) => match row.role {
            Role::Client => ClientRights {
                auto: &row.auto_rights,
                ask: &row.ask_rights,
            },
            _ => ClientRights {
                auto: none,
                ask: none,
            },
        },
        None => ClientRights {
            auto: none,
            ask: none,
        },
    }
}

/// Whether a token, be it a bearer token or not, can be bound to the key: no bearer token can, nor any to a key that is no client's (RFC 9635,
/// section 6.1.1).
pub fn can_bind(setup: &Setup, bearer: bool, id: &[u8]) -> bool
    ensures { result ≡ token_can_bind setup.now bearer id.now }
{
    if bearer {
        return false;
    }
    match setup.key(id) {
        Some(row) => matches!(row.role, Role::Client),
        None => false,
    }
}

/// The names of the rights that a resource server serves; a key that is no server's serves `none`.
pub fn server_names<'a>(setup: &'a Setup, id: &[u8], none: &'a Names) -> &'a Names
    requires { none.now ≡ [] }
    ensures { result.now ≡ names_of_server (key_of setup.now id.now) }
{
    match setup.key(id) {
        Some(row) => match row.role {
            Role::Server => &row.serves,
            _ => none,
        },
        None => none,
    }
}
