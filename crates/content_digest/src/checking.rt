//! Whether a field is of a body.
ghost use Rattle.std.specs.Prelude.{◌≡◌, ◌≢◌, Some, Err};
ghost use Rattle.std.specs.Option.{option_copied};
ghost use Rattle.content_digest.specs.declared.fault.DigestFault.TheVariants.{OutOfMemory};
ghost use Rattle.content_digest.specs.Digest.{is_known, sequence_of, has_right_kind, are_sequences, has_known};
ghost use Rattle.content_digest.specs.Judged.{other_than, difference, first_difference, answer_to, judged, checked, Gives, Says, AnswersWhatIsSo};

use crate::fault::DigestFault;
use crate::line::{FIELD_LEN, FRONT, text_of_digest};
use bytes_and_lists::bytes::Bytes;
use bytes_and_lists::memory::Duplicate;
use sha2::{Digest, Sha256, Sha512};
use std::alloc::Global;
use structured_fields::{Bare, Dictionary, FieldFault, Item, Member, read_dictionary, sole_bytes};

fn is_known(name: &[u8]) -> bool
    ensures { result ≡ is_known name.now }
{
    name == b"sha-256".as_slice() || name == b"sha-512".as_slice()
}

fn sequence_of(member: &Member) -> Option<&Bytes>
    ensures { option_copied result ≡ sequence_of member.now }
{
    match member {
        Member::Item(
            Item {
                bare: Bare::Binary(bytes),
                ..
            },
        ) => Some(bytes),
        _ => None,
    }
}

fn has_right_kind(name: &[u8], member: &Member) -> bool
    ensures { result ≡ has_right_kind (name.now, member.now) }
{
    !is_known(name) || sequence_of(member).is_some()
}

fn are_sequences(members: &Dictionary) -> bool
    ensures { result ≡ are_sequences members.now }
{
    for i in 0..members.len() {
        let (name, member) = members.at(i);
        if !has_right_kind(name.as_slice(), member) {
            return false;
        }
    }
    true
}

fn has_known(members: &Dictionary) -> bool
    ensures { result ≡ has_known members.now }
{
    for i in 0..members.len() {
        let (name, _) = members.at(i);
        if is_known(name.as_slice()) {
            return true;
        }
    }
    false
}

// Whether bytes are this digest. Where they are, this takes no memory.
fn compare_bytes(alloc: Global, wanted: &[u8], found: &Bytes) -> Result<(), DigestFault>
    ensures { Gives result (answer_to (other_than wanted.now (Some found.now))) }
{
    if wanted == found.as_slice() {
        return Ok(());
    }
    Err(DigestFault::Differs {
        wanted: Bytes::from_slice(alloc, wanted)?,
        found: found.copy()?,
    })
}

// The same of a member, where it is a byte sequence.
fn compare_with(alloc: Global, wanted: &[u8], member: &Member) -> Result<(), DigestFault>
    ensures { Gives result (answer_to (other_than wanted.now (sequence_of member.now))) }
{
    match sequence_of(member) {
        Some(found) => compare_bytes(alloc, wanted, found),
        None => Ok(()),
    }
}

// Whether an entry under a known name is the digest of the body. Where it is, this takes no memory.
fn compare(alloc: Global, name: &[u8], member: &Member, body: &[u8]) -> Result<(), DigestFault>
    ensures { Gives result (answer_to (difference body.now (name.now, member.now))) }
{
    if name == b"sha-256".as_slice() {
        compare_with(alloc, &Sha256::digest(body), member)
    } else if name == b"sha-512".as_slice() {
        compare_with(alloc, &Sha512::digest(body), member)
    } else {
        Ok(())
    }
}

fn compare_all(alloc: Global, members: &Dictionary, body: &[u8]) -> Result<(), DigestFault>
    ensures { Gives result (answer_to (first_difference body.now members.now)) }
{
    for i in 0..members.len() {
        let (name, member) = members.at(i);
        compare(alloc, name.as_slice(), member, body)?;
    }
    Ok(())
}

#[tactic(auto, unfolding(crate::specs::Judged::judged))]
fn judge(alloc: Global, members: &Dictionary, body: &[u8]) -> Result<(), DigestFault>
    ensures { Gives result (judged body.now members.now) }
{
    if !are_sequences(members) {
        return Err(DigestFault::NotAField);
    }
    if !has_known(members) {
        return Err(DigestFault::NoKnown);
    }
    compare_all(alloc, members, body)
}

#[tactic(auto, unfolding(crate::specs::Judged::checked))]
fn judge_dictionary(alloc: Global, field: &[u8], body: &[u8]) -> Result<(), DigestFault>
    ensures { Gives result (checked field.now body.now) }
{
    match read_dictionary(alloc, field) {
        Ok(members) => judge(alloc, &members, body),
        Err(FieldFault::NotInGrammar) => Err(DigestFault::NotAField),
        Err(FieldFault::OutOfMemory) => Err(DigestFault::OutOfMemory),
    }
}

// Almost every field is the text of one SHA-256 digest and nothing else, and is compared without decoding it. A longer one, which has more members or no such
// digest, is read before the body is hashed.
#[tactic(auto, using(crate::proofs::Steps::sole_judged))]
fn judge_field(alloc: Global, field: &[u8], body: &[u8]) -> Result<(), DigestFault>
    ensures { Gives result (checked field.now body.now) }
{
    if field.len() > FIELD_LEN || !field.starts_with(FRONT) || !field.ends_with(b":") {
        return judge_dictionary(alloc, field, body);
    }
    let digest = Sha256::digest(body);
    if field == text_of_digest(&digest).as_slice() {
        return Ok(());
    }
    match sole_bytes(alloc, field, b"sha-256") {
        Some(found) => compare_bytes(alloc, &digest, &found),
        None => judge_dictionary(alloc, field, body),
    }
}

/// Whether a Content-Digest field is of the body: Ok exactly where each member under `sha-256` and `sha-512` is the digest of the body, and one at least is
/// there. Members under other names, and parameters, are passed over. The faults come in the order NotAField, NoKnown, Differs.
pub fn check(alloc: Global, field: &[u8], body: &[u8]) -> Result<(), DigestFault>
    // What is answered is so.
    ensures says { result ≢ Err OutOfMemory → Says field.now body.now result }
    // What is so is answered, unless memory runs out: so one answer is so.
    ensures only { AnswersWhatIsSo field.now body.now result }
    ensures exact { Gives result (checked field.now body.now) }
{
    judge_field(alloc, field, body)
}
