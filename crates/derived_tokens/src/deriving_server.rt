//! The authorization server that derives tokens, as `serving` serves it.
ghost use Rattle.std.specs.Prelude.{◌≡◌, ◌≢◌, ◌<◌, ◌≤◌, IfOk, IsUtf8, length};
ghost use Rattle.outside.specs.Gears.{with_moment};
ghost use Rattle.histories.specs.History.{last_moment};
ghost use Rattle.histories.specs.Whole.{own_of};
ghost use Rattle.http_edge.specs.Replies.{reply_bytes, busy_reply};
ghost use Rattle.gnap_objects.specs.CallsFit.{ReplyFits};
ghost use Rattle.gnap_replies.specs.Responses.{response_of};
ghost use Rattle.signed_calls.specs.Marks.{unmarked_lapse};
ghost use Rattle.grant_machine.specs.Gnap.{SignedFits};
ghost use Rattle.as_edge.specs.DirectReplies.{http_reply, direct_reply};
ghost use Rattle.serving.specs.Desks.{desk_backend};
ghost use Rattle.serving.specs.MessageTurns.{HasWrittenText, TakesTurn};
ghost use Rattle.derivation_requests.specs.declared.derive_calls.DeriveStep.TheVariants.{Plain, Derive};
ghost use Rattle.derivation_requests.specs.Pairs.{ArePairs};
ghost use Rattle.derivation_requests.specs.Deriving.{IsDerivable, derive_call};
ghost use Rattle.as_requests.specs.DeskCalls.{IsAskable};
ghost use Rattle.derived_tokens.specs.Answering.{HasAnswered, HasReplied};
ghost use Rattle.derived_tokens.specs.DerivedTurns.{question, active_until, ending, WasTold, IsDerivingTurn};

use as_edge::{AuthorizationServer, print_direct};
use as_requests::{DirectAnswer, Edge, RequestReader, RequestStep};
use bytes_and_lists::bytes::Bytes;
use bytes_and_lists::memory::Mem;
use bytes_and_lists::message::Message;
use derivation_requests::{DeriveStep, Pairs, derive_call};
use gnap_model::calls::{Call, Reply};
use gnap_model::objects::ErrorCode;
use grant_machine::Gnap;
use histories::machine::Desk;
use http_serving::HttpReader;
use outside::device::{Sink, Source};
use outside::gear::{Clock, Draws};
use serving::connection::serve_connection;
use serving::ends::AfterTurn;
use serving::front::Front;
use serving::message_turn::{enter, say, say_busy};
use serving::server::Server;
use serving::turn_taker::TurnTaker;
use signed_calls::signed::Signed;
use std::alloc::Global;
use std::marker::Model;

/// The authorization server of a setup, to which pairs of client keys and resource servers are known. Its workers share it, and it keeps nothing of what they
/// do.
/// Contracts see the setup and the pairs, which are pairs of the setup.
#[derive(Drop)]
pub struct DerivingServer {
    server: AuthorizationServer,
    pairs: Pairs,
}

impl Model for DerivingServer {
    ghost use Rattle.derived_tokens.specs.DerivingSetups.{DerivingSetup};
    ghost use Rattle.derivation_requests.specs.Pairs.{ArePairs};

    ghost Value = { DerivingSetup };

    ghost view = { λ d. record { setup = d.server.edge; pairs = d.pairs } };

    ghost invariant = { λ d. ArePairs d.server.edge d.pairs };
}

impl DerivingServer {
    /// The server of a setup, to which these pairs of it are known.
    pub fn new(edge: Edge, pairs: Pairs) -> DerivingServer
        requires { ArePairs edge pairs }
        ensures { result ≡ record { setup = edge; pairs = pairs } }
    {
        DerivingServer {
            server: AuthorizationServer { edge },
            pairs,
        }
    }

    // What the message asks.
    fn step(
        &self,
        alloc: Global,
        reader: &mut RequestReader,
        message: &Message,
        moment: u64,
    ) -> Result<DeriveStep, Mem>
        ensures step { IfOk result (λ s. s ≡ derive_call self.now.pairs self.now.setup message.now moment) }
        ensures derivable { IfOk result IsDerivable }
    {
        derive_call(
            alloc,
            reader,
            message,
            &self.server.edge,
            &self.pairs,
            moment,
        )
    }

    // Says what needs no state.
    fn say_direct<S: Source + Sink>(
        &self,
        alloc: Global,
        conn: &mut S,
        answer: DirectAnswer,
        last: bool,
    ) -> AfterTurn
        ensures { HasAnswered (reply_bytes (direct_reply self.now.setup last answer)) (S.told conn.old) (S.told conn.new) (S.faults conn.old)
            (S.faults conn.new) result }
    {
        match print_direct(alloc, self.server.edge.setup(), answer, last) {
            Ok(response) => say(&self.server, conn, &response),
            Err(Mem) => say_busy(&self.server, conn),
        }
    }

    // Says the machine's reply.
    fn say_reply<S: Source + Sink>(
        &self,
        alloc: Global,
        conn: &mut S,
        reply: &Reply,
        last: bool,
    ) -> AfterTurn
        requires { ReplyFits reply.now }
        ensures { HasAnswered (reply_bytes (http_reply last (response_of self.now.setup reply.now))) (S.told conn.old) (S.told conn.new) (S.faults conn.old)
            (S.faults conn.new) result }
    {
        match self.server.respond(alloc, reply, last) {
            Ok(response) => say(&self.server, conn, &response),
            Err(Mem) => say_busy(&self.server, conn),
        }
    }

    // Says that memory ran out.
    fn say_starved<S: Source + Sink>(&self, conn: &mut S) -> AfterTurn
        ensures written { HasWrittenText (reply_bytes busy_reply) (S.told conn.old) (S.told conn.new) (S.faults conn.old) (S.faults conn.new) result }
        ensures starved { result ≢ AfterTurn.MoreMayCome }
    {
        say_busy(&self.server, conn)
    }
}

// ---- the calls of a derivation

// The question whether the parent is live.
fn question(server: Bytes, parent: Bytes) -> Signed
    ensures { result ≡ question server parent }
{
    Signed {
        mark: None,
        call: Call::Introspect {
            server,
            value: parent,
            binding: None,
            wanted: None,
        },
    }
}

// Before which moment a token is told to be live. None where it isn't.
fn active_until(reply: &Reply) -> Option<u64>
    ensures { result ≡ active_until reply.now }
{
    match reply {
        Reply::Active { exp, .. } => Some(*exp),
        _ => None,
    }
}

// The grant request, whose grant ends at this moment at the latest.
fn ending(end: u64, begin: Signed) -> Signed
    ensures { result ≡ ending end begin }
{
    let Signed { mark, call } = begin;
    let call = match call {
        Call::Begin {
            key,
            request,
            not_after: _,
        } => Call::Begin {
            key,
            request,
            not_after: Some(end),
        },
        call => call,
    };
    Signed { mark, call }
}

// ---- turns

// An exit that lets a call or a reply go writes its drop out, for each kind of them: below `drop` is one call.

// Enters a call at a moment, and says the machine's reply.
fn enter_and_reply<D: Desk<M = Gnap>, S: Source + Sink, G: Draws>(
    server: &DerivingServer,
    alloc: Global,
    desk: &mut D,
    conn: &mut S,
    gear: &mut G,
    moment: u64,
    call: Signed,
    last: bool,
) -> AfterTurn
    requires fits { SignedFits call }
    requires no_lapse { call ≢ unmarked_lapse }
    requires in_time { moment ≤ last_moment }
    requires room { (h : _) × D.seen desk.old h × (length (own_of (D.number desk.old) h) < 4503599627370496) }
    ensures rules { D.rules desk.new ≡ D.rules desk.old }
    ensures number { D.number desk.new ≡ D.number desk.old }
    ensures home { D.home desk.new ≡ D.home desk.old }
    ensures replied { (h : _) → D.seen desk.old h → HasReplied server.now.setup last (D.rules desk.old) (D.number desk.old) h moment call (D.seen desk.new)
        (G.state gear.old) (G.state gear.new) (S.told conn.old) (S.told conn.new) (S.faults conn.old) (S.faults conn.new) result }
{
    match enter(desk, gear, moment, call) {
        Ok(reply) => {
            let ended = server.say_reply(alloc, conn, &reply, last);
            drop(reply);
            ended
        }
        Err(Mem) => server.say_starved(conn),
    }
}

// Before which moment the parent is live, as the machine answers the server's question. None where it isn't.
fn live_until<D: Desk<M = Gnap>, G: Draws>(
    desk: &mut D,
    gear: &mut G,
    moment: u64,
    asker: Bytes,
    parent: Bytes,
) -> Result<Option<u64>, Mem>
    requires asker { IsUtf8 asker }
    requires in_time { moment ≤ last_moment }
    requires room { (h : _) × D.seen desk.old h × (length (own_of (D.number desk.old) h) < 4503599627370496) }
    ensures rules { D.rules desk.new ≡ D.rules desk.old }
    ensures number { D.number desk.new ≡ D.number desk.old }
    ensures home { D.home desk.new ≡ D.home desk.old }
    ensures told { (h : _) → D.seen desk.old h → WasTold (D.rules desk.old) (D.number desk.old) h moment asker parent (D.seen desk.new)
        (G.state gear.old) (G.state gear.new) result }
{
    let told = enter(desk, gear, moment, question(asker, parent))?;
    let end = active_until(&told);
    drop(told);
    Ok(end)
}

// The turn of a message by which no token is to be derived.
fn plain_turn<D: Desk<M = Gnap>, S: Source + Sink, G: Clock + Draws>(
    server: &DerivingServer,
    alloc: Global,
    desk: &mut D,
    conn: &mut S,
    gear: &mut G,
    message: &Message,
    last: bool,
    moment: u64,
    step: RequestStep,
) -> AfterTurn
    requires room { (desk_backend D.rules D.number D.home D.seen server.now.setup).has_room desk.old 1 }
    requires in_time { moment ≤ last_moment }
    requires step { derive_call server.now.pairs server.now.setup message.now moment ≡ Plain step }
    requires askable { IsAskable step }
    ensures { (h : _) (g : _) → D.seen desk.old h → G.state gear.old ≡ with_moment moment g
        → TakesTurn (desk_backend D.rules D.number D.home D.seen server.now.setup) (IsDerivingTurn server.now.pairs server.now.setup) last message.now
        desk.old h desk.new g (G.state gear.new) (S.told conn.old) (S.told conn.new) (S.faults conn.old) (S.faults conn.new) result }
{
    let _message = message;
    match step {
        RequestStep::Direct(answer) => server.say_direct(alloc, conn, answer, last),
        RequestStep::Ask(call) => {
            enter_and_reply(server, alloc, desk, conn, gear, moment, call, last)
        }
    }
}

// The turn of a message by which a token is to be derived: the parent is asked about first.
fn derived_turn<D: Desk<M = Gnap>, S: Source + Sink, G: Clock + Draws>(
    server: &DerivingServer,
    alloc: Global,
    desk: &mut D,
    conn: &mut S,
    gear: &mut G,
    message: &Message,
    last: bool,
    moment: u64,
    parent: Bytes,
    asker: Bytes,
    begin: Signed,
) -> AfterTurn
    requires room { (desk_backend D.rules D.number D.home D.seen server.now.setup).has_room desk.old 1 }
    requires in_time { moment ≤ last_moment }
    requires step { derive_call server.now.pairs server.now.setup message.now moment ≡ Derive parent asker begin }
    requires derivable { IsDerivable (Derive parent asker begin) }
    ensures { (h : _) (g : _) → D.seen desk.old h → G.state gear.old ≡ with_moment moment g
        → TakesTurn (desk_backend D.rules D.number D.home D.seen server.now.setup) (IsDerivingTurn server.now.pairs server.now.setup) last message.now
        desk.old h desk.new g (G.state gear.new) (S.told conn.old) (S.told conn.new) (S.faults conn.old) (S.faults conn.new) result }
{
    let _message = message;
    match live_until(desk, gear, moment, asker, parent) {
        Ok(Some(end)) => {
            let begun = ending(end, begin);
            enter_and_reply(server, alloc, desk, conn, gear, moment, begun, last)
        }
        Ok(None) => {
            drop(begin);
            let denied = DirectAnswer::Error(ErrorCode::RequestDenied);
            server.say_direct(alloc, conn, denied, last)
        }
        Err(Mem) => {
            drop(begin);
            server.say_starved(conn)
        }
    }
}

impl<D: Desk<M = Gnap>, G: Clock + Draws> TurnTaker<D, G> for DerivingServer {
    ghost use Rattle.std.specs.Prelude.{List};
    ghost use Rattle.grant_machine.specs.Gnap.{GnapEntry};
    ghost use Rattle.serving.specs.Desks.{desk_backend};
    ghost use Rattle.derived_tokens.specs.DerivedTurns.{IsDerivingTurn};

    type Message = Message;

    type Scratch = RequestReader;

    ghost Entry = { GnapEntry };

    ghost Past = { List GnapEntry };

    ghost backend_kind = { λ server. desk_backend D.rules D.number D.home D.seen server.setup };

    ghost is_turn = { λ server. IsDerivingTurn server.pairs server.setup };

    fn scratch(&self, alloc: Global) -> RequestReader {
        RequestReader::new(alloc)
    }

    fn turn<S: Source + Sink>(
        &self,
        alloc: Global,
        reader: &mut RequestReader,
        desk: &mut D,
        conn: &mut S,
        gear: &mut G,
        message: &Message,
        last: bool,
    ) -> AfterTurn {
        let moment = gear.now();
        match self.step(alloc, reader, message, moment) {
            Ok(DeriveStep::Plain(step)) => {
                plain_turn(self, alloc, desk, conn, gear, message, last, moment, step)
            }
            Ok(
                DeriveStep::Derive {
                    parent,
                    server,
                    begin,
                },
            ) => derived_turn(
                self, alloc, desk, conn, gear, message, last, moment, parent, server, begin,
            ),
            Err(Mem) => self.say_starved(conn),
        }
    }
}

impl Front for DerivingServer {
    ghost use Rattle.derived_tokens.specs.DerivedSessions.{IsDerivingSession};

    type M = Gnap;

    type Message = Message;

    ghost rules = { λ server. server.setup };

    ghost session = { λ server. IsDerivingSession server.pairs server.setup };

    fn serve<D: Desk<M = Gnap>, S: Source + Sink, G: Clock + Draws>(
        &self,
        alloc: Global,
        desk: &mut D,
        conn: &mut S,
        gear: &mut G,
    ) {
        serve_connection(&HttpReader, self, alloc, desk, conn, gear);
    }
}
