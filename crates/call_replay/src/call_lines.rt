//! A line of a replay: the call that it makes, or what is said to it at once.
ghost use Rattle.std.specs.Prelude.{◌≡◌, ◌≤◌, [], true, IfOk, IfSome, codes, option_map, option_and_then};
ghost use Rattle.std.specs.Option.{option_copied};
ghost use Rattle.histories.specs.History.{last_moment};
ghost use Rattle.serde_json.specs.Data.{depth};
ghost use Rattle.serde_json.specs.Find.{get};
ghost use Rattle.serde_json.specs.Read.{max_depth};
ghost use Rattle.serde_json.specs.View.{view, items_view};
ghost use Rattle.message_signature.specs.Marks.{has_nonce_length};
ghost use Rattle.gnap_objects.specs.CallReading.{IsReadable, body_in};
ghost use Rattle.call_replay.specs.CallLines.{in_time, word_of, moment_of, text_under, value_of, has_body_form, words_from, draw_of, line_mark, refused, line_body, kind_named, call_step, object_step, text_step, line_step};
ghost use Rattle.call_replay.specs.Asked.{IsAsked};

use crate::line_marks::{MarkFields, created_in, mark_for, nonce_in};
use crate::reply_lines::error_line;
use bytes_and_lists::bytes::Bytes;
use bytes_and_lists::memory::Mem;
use gnap_objects::{BodyForm, CallKind, CallOrRefusal, ErrorCode, Setup, read_call};
use json_objects::{has_fraction, member, member_within};
use random_words::RandomWords;
use serde_json::Value;
use signed_calls::signed::Signed;
use std::alloc::Global;

/// The most bytes of a call line.
pub const LINE_LIMIT: usize = 131_072;

const LAST_MOMENT: u64 = 253_402_300_799;

/// What a line is to the desk.
#[derive(Drop)]
pub enum LineStep {
    /// This is said at once.
    Say(Bytes),
    /// The moment, in seconds since 1970, the words that are drawn, and the call as it is signed.
    Ask(u64, RandomWords, Signed),
}

/// The moment that a value is, in seconds since 1970.
pub(crate) fn moment_in(value: &Value) -> Option<u64>
    ensures moment { result ≡ option_and_then in_time (word_of (view value.now)) }
    ensures in_time { IfSome result (λ at. at ≤ last_moment) }
{
    let at = value.as_u64()?;
    if at <= LAST_MOMENT { Some(at) } else { None }
}

#[tactic(auto, unfolding(crate::specs::CallLines::moment_of))]
fn moment_of(value: &Value) -> Option<u64>
    ensures moment { result ≡ moment_of (view value.now) }
    ensures in_time { IfSome result (λ at. at ≤ last_moment) }
{
    moment_in(member(value, "at")?)
}

#[tactic(auto, unfolding(crate::specs::CallLines::text_under))]
fn text_under<'v>(value: &'v Value, name: &str) -> Option<&'v str>
    ensures { option_map (λ s. s.now) result ≡ text_under name.now (view value.now) }
{
    member(value, name)?.as_str()
}

// The presented value; where the member is absent it is empty.
#[tactic(auto, unfolding(crate::specs::CallLines::value_of))]
fn value_of(value: &Value) -> Option<&str>
    ensures { option_map (λ s. s.now) result ≡ value_of (view value.now) }
{
    match member(value, "value") {
        None => Some(""),
        Some(presented) => presented.as_str(),
    }
}

#[tactic(auto, unfolding(crate::specs::CallLines::has_body_form))]
fn has_body_form(value: &Value) -> bool
    ensures { result ≡ has_body_form (view value.now) }
{
    match member(value, "body") {
        None => true,
        Some(body) => body.is_object(),
    }
}

fn words_of(items: &Vec<Value>) -> Option<[u64; 48]>
    ensures { result ≡ words_from [] (items_view items.now.items) }
{
    let mut words = [0u64; 48];
    let mut place = 0;
    for item in items {
        let word = item.as_u64()?;
        if place == 48 {
            return None;
        }
        words[place] = word;
        place += 1;
    }
    Some(words)
}

#[tactic(auto, unfolding(crate::specs::CallLines::draw_of))]
fn draw_of(value: &Value) -> Option<[u64; 48]>
    ensures { result ≡ draw_of (view value.now) }
{
    match member(value, "draw") {
        None => Some([0; 48]),
        Some(draw) => words_of(draw.as_array()?),
    }
}

fn refused(alloc: Global, code: ErrorCode) -> Result<LineStep, Mem>
    ensures step { IfOk result (λ s. s ≡ refused code) }
    ensures asked { IfOk result IsAsked }
{
    Ok(LineStep::Say(error_line(alloc, code)?))
}

// The body for the call.
fn body_of(value: &Value) -> BodyForm<'_>
    requires { depth (view value.now) ≤ max_depth }
    ensures body { body_in result ≡ line_body (get (codes "body") (view value.now)) }
    ensures readable { IsReadable result }
{
    match member_within(value, "body") {
        None => BodyForm::Absent,
        Some(body) => if has_fraction(body) {
            BodyForm::NotOfForm
        } else {
            BodyForm::Object(body)
        },
    }
}

fn kind_named(name: &str) -> Option<CallKind>
    ensures { result ≡ kind_named name.now }
{
    match name {
        "begin" => Some(CallKind::Begin),
        "continue" => Some(CallKind::Continue),
        "modify" => Some(CallKind::Modify),
        "cancel" => Some(CallKind::Cancel),
        "rotate" => Some(CallKind::Rotate),
        "revoke" => Some(CallKind::Revoke),
        "introspect" => Some(CallKind::Introspect),
        "look" => Some(CallKind::Look),
        "find_code" => Some(CallKind::FindCode),
        "decide" => Some(CallKind::Decide),
        _ => None,
    }
}

#[tactic(auto, using(crate::proofs::Asked::is_asked))]
fn call_step(
    alloc: Global,
    setup: &Setup,
    fields: MarkFields<'_>,
    draw: RandomWords,
    kind: Option<CallKind>,
    key: &str,
    presented: &str,
    body: BodyForm<'_>,
) -> Result<LineStep, Mem>
    requires in_time { fields.at ≤ last_moment }
    requires sized { IfSome (option_copied fields.nonce) (λ n. has_nonce_length n ≡ true) }
    requires signed_in_time { IfSome fields.created (λ moment. moment ≤ last_moment) }
    requires readable { IsReadable body }
    ensures step { IfOk result (λ s. s
        ≡ call_step setup.now fields.entry.at draw (line_mark fields.entry.at fields.entry.number (option_copied fields.entry.nonce) fields.entry.created)
        kind key.now presented.now (body_in body.entry)) }
    ensures asked { IfOk result IsAsked }
{
    let Some(kind) = kind else {
        return Ok(LineStep::Say(Bytes::from_slice(alloc, b"404\n")?));
    };
    match read_call(
        alloc,
        setup,
        kind,
        key.as_bytes(),
        presented.as_bytes(),
        body,
    )? {
        CallOrRefusal::Accepted(call) => match mark_for(alloc, kind, fields) {
            Ok(mark) => Ok(LineStep::Ask(fields.at, draw, Signed { mark, call })),
            Err(Mem) => {
                drop(call);
                Err(Mem)
            }
        },
        CallOrRefusal::Refused(code) => refused(alloc, code),
    }
}

#[tactic(auto, unfolding(crate::specs::CallLines::object_step))]
fn object_step(alloc: Global, setup: &Setup, number: u64, value: &Value) -> Result<LineStep, Mem>
    requires { depth (view value.now) ≤ max_depth }
    ensures step { IfOk result (λ s. s ≡ object_step setup.now number (view value.now)) }
    ensures asked { IfOk result IsAsked }
{
    let Some(at) = moment_of(value) else {
        return refused(alloc, ErrorCode::InvalidRequest);
    };
    let Some(call) = text_under(value, "call") else {
        return refused(alloc, ErrorCode::InvalidRequest);
    };
    let Some(key) = text_under(value, "key") else {
        return refused(alloc, ErrorCode::InvalidRequest);
    };
    let Some(presented) = value_of(value) else {
        return refused(alloc, ErrorCode::InvalidRequest);
    };
    let Some(draw) = draw_of(value) else {
        return refused(alloc, ErrorCode::InvalidRequest);
    };
    let draw = RandomWords::given(alloc, draw)?;
    if !has_body_form(value) {
        return refused(alloc, ErrorCode::InvalidRequest);
    }
    let Some(nonce) = nonce_in(value) else {
        return refused(alloc, ErrorCode::InvalidRequest);
    };
    let Some(created) = created_in(value) else {
        return refused(alloc, ErrorCode::InvalidRequest);
    };
    let fields = MarkFields {
        at,
        number,
        nonce,
        created,
    };
    call_step(
        alloc,
        setup,
        fields,
        draw,
        kind_named(call),
        key,
        presented,
        body_of(value),
    )
}

fn text_step(alloc: Global, setup: &Setup, number: u64, line: &[u8]) -> Result<LineStep, Mem>
    ensures step { IfOk result (λ s. s ≡ text_step setup.now number line.now) }
    ensures asked { IfOk result IsAsked }
{
    match Value::from_slice(alloc, line) {
        Ok(value) => object_step(alloc, setup, number, &value),
        Err(e) => if e.is_memory() {
            Err(Mem)
        } else {
            refused(alloc, ErrorCode::InvalidRequest)
        },
    }
}

/// What the line of this number is to the desk; the setup's line has the number 1. An empty line says nothing. A line of more than 131,072 bytes is answered
/// `413`, whatever follows.
#[tactic(auto, unfolding(crate::specs::CallLines::line_step))]
pub fn line_step(alloc: Global, setup: &Setup, number: u64, line: &[u8]) -> Result<LineStep, Mem>
    ensures step { IfOk result (λ s. s ≡ line_step setup.now number line.now) }
    ensures asked { IfOk result IsAsked }
{
    if line.is_empty() {
        return Ok(LineStep::Say(Bytes::new(alloc)));
    }
    if LINE_LIMIT < line.len() {
        return Ok(LineStep::Say(Bytes::from_slice(alloc, b"413\n")?));
    }
    text_step(alloc, setup, number, line)
}
