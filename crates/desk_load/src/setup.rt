//! The setup of a load, and the rights in it.
ghost use Rattle.std.specs.Prelude.{◌≡◌, [], ◌∷◌, codes, IfOk};
ghost use Rattle.desk_load.specs.LoadCalls.{reference_to, client_row, server_row, load_setup};

use bytes_and_lists::bytes::Bytes;
use bytes_and_lists::memory::Mem;
use bytes_and_lists::seq::Seq;
use gnap_model::key_rows::KeyRows;
use gnap_model::objects::{KeyRow, Role, Setup};
use gnap_model::rights::{Right, Rights};
use std::alloc::Global;

/// The reference to one right.
pub fn reference_to(alloc: Global, name: &[u8]) -> Result<Rights, Mem>
    ensures { IfOk result (λ rights. rights ≡ reference_to name.now) }
{
    let name = Bytes::from_slice(alloc, name)?;
    let mut rights = Seq::new(alloc);
    rights.push(Right::Reference(name))?;
    Ok(rights)
}

/// A copy of each of two texts.
pub fn two_texts(alloc: Global, first: &[u8], second: &[u8]) -> Result<(Bytes, Bytes), Mem>
    ensures { IfOk result (λ texts. (texts.0 ≡ first.now) × (texts.1 ≡ second.now)) }
{
    let first = Bytes::from_slice(alloc, first)?;
    Ok((first, Bytes::from_slice(alloc, second)?))
}

fn client_row(alloc: Global) -> Result<KeyRow, Mem>
    ensures { IfOk result (λ row. row ≡ client_row) }
{
    let auto_rights = reference_to(alloc, b"photos")?;
    let ask_rights = reference_to(alloc, b"mail")?;
    let (id, secret) = two_texts(alloc, b"c1", b"secret-key-of-c1")?;
    Ok(KeyRow {
        id,
        role: Role::Client,
        secret,
        auto_rights,
        ask_rights,
        serves: Seq::new(alloc),
    })
}

fn server_row(alloc: Global) -> Result<KeyRow, Mem>
    ensures { IfOk result (λ row. row ≡ server_row) }
{
    let (photos, mail) = two_texts(alloc, b"photos", b"mail")?;
    let mut serves = Seq::new(alloc);
    serves.push(photos)?;
    serves.push(mail)?;
    let (id, secret) = two_texts(alloc, b"r1", b"secret-key-of-r1")?;
    Ok(KeyRow {
        id,
        role: Role::Server,
        secret,
        auto_rights: Seq::new(alloc),
        ask_rights: Seq::new(alloc),
        serves,
    })
}

/// The setup of a load: one client, and one resource server.
pub fn load_setup(alloc: Global) -> Result<Setup, Mem>
    ensures { IfOk result (λ setup. setup ≡ load_setup) }
{
    let mut keys = Seq::new(alloc);
    keys.push(client_row(alloc)?)?;
    keys.push(server_row(alloc)?)?;
    let (base, front) = two_texts(alloc, b"https://as.example", b"https://front.example")?;
    Ok(Setup {
        base,
        front,
        keys: KeyRows::new(alloc, keys)?,
    })
}
