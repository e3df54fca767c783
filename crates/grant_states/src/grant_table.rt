//! The rows of grants.
ghost use Rattle.std.specs.Prelude.{◌≡◌, ℕ, ◌+◌, ◌-◌, ◌*◌, ◌^◌, ◌<◌, ◌≤◌, [], ◌∷◌, ◌++◌, true, length, map, filter, option_map, slice_get, get_or, is_some, IfSome, OnOk, not, ◌==◌};
ghost use Rattle.std.specs.Option.{option_and_then};
ghost use Rattle.std.specs.List.{All};
ghost use Rattle.std.specs.Option.{option_or};
ghost use Rattle.gnap_model.specs.Common.{same_text, some_if, is_text};
ghost use Rattle.gnap_model.specs.Values.{code_text};
ghost use Rattle.gnap_model.specs.declared.notes.RoundNote.{RoundNote};
ghost use Rattle.gnap_tables.specs.declared.rows.GrantRow.{GrantRow};
ghost use Rattle.gnap_tables.specs.Tables.{is_row_over as over, is_round_over as round_over, sweep_grants, drop_grant, has_grant, change_grant, with_door};
ghost use Rattle.gnap_tables.specs.RowSearches.{Interaction, interaction_where, newest, row_by_door, row_by_number, is_approved_grant, interaction_by_code};
ghost use Rattle.ordered_search.specs.Order.{IsAscending};
ghost use Rattle.grant_states.specs.Grants.{BeginsWith, changed_by, in_round, CanChange, ChangesAll, is_door_of, is_current_door, grant_in};
ghost use Rattle.grant_states.specs.Listed.{where_some};
ghost use Rattle.grant_states.specs.Grants.{round_numbered, is_handle_listed, is_round_open, code_at, open_numbered, later_of, IsLatest, IsHandleListed};
ghost use Rattle.grant_states.specs.Interactions.{goes_by, is_open_by};
ghost use Rattle.grant_states.specs.OpenCodes.{open_code as code_while_open};
ghost use Rattle.gnap_tables.proofs.Lists.{HasItem};
ghost use Rattle.grant_states.specs.declared.numbers_by_key.Listed.{Listed};
ghost use Rattle.grant_states.specs.declared.grant_table.GrantPlace.{GrantPlace};

use crate::changes::{Change, apply};
use crate::code_list::CodeList;
use crate::interactions::{InteractionName, is_open};
use crate::numbers_by_key::{Listed, NumbersByKey, number_at};
use crate::open_codes::{OpenCodes, open_code};
use crate::serials::{handle_key, serial_in_value};
use bytes_and_lists::memory::Mem;
use gnap_tables::rows::{GrantRow, KeptRound, Round};
use ordered_search::{Keyed, Steps, place, place_of};
use std::alloc::Global;
use std::marker::Model;
use std::sync::ledger::Ledger;

/// A row at its place. Its number and the serial of its continuation value stand beside it, so that searches read no rows.
#[derive(Drop)]
struct GrantPlace {
    number: u64,
    door_serial: u64,
    row: Box<GrantRow>,
}

impl Keyed for GrantPlace {
    ghost key_of = { λ place. place.number };

    fn key(&self) -> u64 {
        self.number
    }
}

/// The rows of the grants that aren't finalized, in order of their numbers, with indexes of their continuation values and of the names of their rounds.
#[derive(Drop)]
pub struct GrantTable {
    places: Vec<GrantPlace>,
    // The grants by the serials with which the continuation values begin that they have or had.
    doors: Vec<Listed>,
    doors_below: u64,
    // The grants by the handles of the rounds that they have or had.
    handles: NumbersByKey,
    // The grants by the user codes of rounds in which the user may still decide after the greatest moment of a sweep.
    codes: OpenCodes,
    swept: u64,
}

impl Model for GrantTable {
    ghost use Rattle.std.specs.Prelude.{map, ◌-◌, min, vec_len, vec_capacity};
    ghost use Rattle.grant_states.specs.Grants.{StoredGrants, AreGrantPlaces, AreHandlesListed, AreCodesListed, grant_in};

    ghost Value = { StoredGrants };

    ghost view = { λ s. record {
      rows = map grant_in s.places.items;
      spare = min (min (vec_capacity s.places - vec_len s.places) (vec_capacity s.doors - vec_len s.doors)) s.handles.spare;
      doors_below = s.doors_below;
    } };

    ghost invariant = { λ s. AreGrantPlaces s.places.items s.doors.items s.doors_below × AreHandlesListed s.handles.listed s.places.items
        × AreCodesListed s.swept s.codes s.places.items };
}

// The row at a place, where it has this number.
fn numbered(places: &[GrantPlace], at: usize, number: u64) -> Option<&GrantRow>
    ensures { option_map (λ row. row.now) result
        ≡ option_map grant_in (option_and_then (λ place. some_if (place.number == number) place) (slice_get places.now at)) }
{
    match places.get(at) {
        Some(place) => {
            if place.number == number {
                Some(place.row.as_ref())
            } else {
                None
            }
        }
        None => None,
    }
}

// The row, where it has this continuation value.
fn with_door<'a>(row: Option<&'a GrantRow>, value: &[u8]) -> Option<&'a GrantRow>
    ensures { option_map (λ row. row.now) result
        ≡ option_and_then (λ (row : GrantRow). some_if (same_text row.door value.now) row) (option_map (λ row. row.now) row.entry) }
{
    match row {
        Some(row) if row.door.as_slice() == value => Some(row),
        _ => None,
    }
}

// The row, where it has an interaction of this name in which the user may still decide.
fn open_by<'a>(row: Option<&'a GrantRow>, now: u64, name: InteractionName) -> Option<&'a GrantRow>
    ensures { option_map (λ row. row.now) result
        ≡ option_and_then (λ (row : GrantRow). some_if (is_open_by name.entry now row.round) row) (option_map (λ row. row.now) row.entry) }
{
    match row {
        Some(row) if is_open(&row.round, now, name) => Some(row),
        _ => None,
    }
}

// The grant with this number, where it has an interaction of this name in which the user may still decide.
fn open_at<'a>(
    places: &'a [GrantPlace],
    number: u64,
    now: u64,
    name: InteractionName,
) -> Option<&'a GrantRow>
    requires { IsAscending (map (λ (place : GrantPlace). place.number) places.now) }
    ensures { option_map (λ row. row.now) result ≡ open_numbered places.now now name.entry number }
{
    open_by(
        numbered(places, place_of(places, number), number),
        now,
        name,
    )
}

// The one of both that has the greater number.
fn later<'a>(found: Option<&'a GrantRow>, next: Option<&'a GrantRow>) -> Option<&'a GrantRow>
    ensures { option_map (λ row. row.now) result ≡ later_of (option_map (λ row. row.now) found.entry) (option_map (λ row. row.now) next.entry) }
{
    match (found, next) {
        (Some(before), Some(row)) => {
            if before.number < row.number {
                Some(row)
            } else {
                Some(before)
            }
        }
        (None, _) => next,
        (_, None) => found,
    }
}

// The last of the listed grants that has an interaction of this name in which the user may still decide.
fn last_open<'a>(
    places: &'a [GrantPlace],
    listed: &[Listed],
    now: u64,
    name: InteractionName,
) -> Option<&'a GrantRow>
    requires { IsAscending (map (λ (place : GrantPlace). place.number) places.now) }
    ensures { IsLatest (open_numbered places.now now name.entry) listed.now (option_map (λ row. row.now) result) }
{
    let mut found = None;
    for one in listed {
        found = later(found, open_at(places, one.number, now, name));
    }
    found
}

// The round of the row.
fn round_of(row: Option<&GrantRow>) -> Option<&Round>
    ensures { option_map (λ round. round.now) result ≡ option_and_then (λ (row : GrantRow). row.round) (option_map (λ row. row.now) row.entry) }
{
    if let Some(row) = row
        && let Some(kept) = &row.round
    {
        Some(kept.round())
    } else {
        None
    }
}

// The round of the grant with this number.
fn round_at(places: &[GrantPlace], number: u64) -> Option<&Round>
    requires { IsAscending (map (λ (place : GrantPlace). place.number) places.now) }
    ensures { option_map (λ round. round.now) result ≡ round_numbered number places.now }
{
    round_of(numbered(places, place_of(places, number), number))
}

// The grant that is listed has a round with this handle.
fn has_handle(places: &[GrantPlace], one: &Listed) -> bool
    requires { IsAscending (map (λ (place : GrantPlace). place.number) places.now) }
    ensures { result ≡ is_handle_listed places.now one.now }
{
    match round_at(places, one.number) {
        Some(round) => handle_key(&round.handle) == one.key,
        None => false,
    }
}

// The code of the row's round in which the user may still decide after this moment.
fn open_code_at(place: &GrantPlace, moment: u64) -> Option<[u8; 8]>
    ensures { result ≡ code_at moment place.now }
{
    open_code(&place.row.as_ref().round, moment)
}

// In the round of the row, which has a user code, the user may still decide after this moment.
fn has_open_code(row: Option<&GrantRow>, moment: u64) -> bool
    ensures { result ≡ where_some (λ (row : GrantRow). is_some (code_while_open moment row.round)) (option_map (λ row. row.now) row.entry) }
{
    match row {
        Some(row) => open_code(&row.round, moment).is_some(),
        None => false,
    }
}

// The same of the grant with this number.
fn is_open_after(places: &[GrantPlace], number: u64, moment: u64) -> bool
    requires { IsAscending (map (λ (place : GrantPlace). place.number) places.now) }
    ensures { result ≡ is_round_open moment places.now number }
{
    has_open_code(numbered(places, place_of(places, number), number), moment)
}

// The row, where it has an interaction of this name in which the user may still decide, else what was found before.
fn open_or<'a>(
    row: &'a GrantRow,
    found: Option<&'a GrantRow>,
    now: u64,
    name: InteractionName,
) -> Option<&'a GrantRow>
    ensures { option_map (λ row. row.now) result
        ≡ option_or (some_if (is_open_by name.entry now row.entry.now.round) row.entry.now) (option_map (λ row. row.now) found.entry) }
{
    if is_open(&row.round, now, name) {
        Some(row)
    } else {
        found
    }
}

// The last of all grants that has an interaction of this name in which the user may still decide.
fn last_open_of_all<'a>(
    places: &'a [GrantPlace],
    now: u64,
    name: InteractionName,
) -> Option<&'a GrantRow>
    ensures { option_map (λ row. row.now) result ≡ newest (λ (row : GrantRow). some_if (is_open_by name.entry now row.round) row) (map grant_in places.now) }
{
    let mut found = None;
    for place in places {
        found = open_or(place.row.as_ref(), found, now, name);
    }
    found
}

// Lists a grant under the handle of its round, where it has one.
fn list_handle(handles: &mut NumbersByKey, number: u64, round: &Option<KeptRound>)
    requires room { 0 < handles.old.spare }
    ensures listed { IfSome round.now (IsHandleListed handles.new.listed number) }
    ensures kept { (one : Listed) → HasItem handles.old.listed one → HasItem handles.new.listed one }
{
    if let Some(kept) = round {
        handles.list(handle_key(&kept.round().handle), number);
    }
}

// Leaves out the handles of rounds that grants had before.
fn drop_unnamed(handles: &mut NumbersByKey, places: &[GrantPlace])
    requires { IsAscending (map (λ (place : GrantPlace). place.number) places.now) }
    ensures { handles.new.listed ≡ filter (is_handle_listed places.now) handles.old.listed }
{
    handles.keep(|one| has_handle(places, one));
}

// Leaves out the codes of rounds in which the user can't decide any more after this moment.
fn drop_closed_in(list: &mut CodeList, places: &[GrantPlace], moment: u64)
    requires { IsAscending (map (λ (place : GrantPlace). place.number) places.now) }
    ensures { list.new ≡ filter (λ (one : Listed). is_round_open moment places.now one.number) list.old }
{
    list.keep(|one| is_open_after(places, one.number, moment));
}

// The same in each list.
fn drop_closed(lists: &mut Vec<CodeList>, places: &[GrantPlace], moment: u64)
    requires { IsAscending (map (λ (place : GrantPlace). place.number) places.now) }
    ensures { (i : ℕ) → get_or lists.new.items i [] ≡ filter (λ (one : Listed). is_round_open moment places.now one.number) (get_or lists.old.items i []) }
{
    for i in 0..lists.len() {
        drop_closed_in(&mut lists[i], places, moment);
    }
}

/// The end of the round has come.
fn is_round_over(round: &Option<KeptRound>, now: u64) -> bool
    ensures { result ≡ round_over now round.now }
{
    match round {
        Some(round) => round.round().over <= now,
        None => false,
    }
}

/// The end of the grant has come, or that of its round.
fn is_row_over(row: &GrantRow, now: u64) -> bool
    ensures { result ≡ over now row.now }
{
    row.end <= now || is_round_over(&row.round, now)
}

// The grant goes on at now.
fn lasts(place: &GrantPlace, now: u64) -> bool
    ensures { result ≡ not (over now (grant_in place.now)) }
{
    !is_row_over(place.row.as_ref(), now)
}

// The row is changed, where it has this number.
fn change_place(place: &mut GrantPlace, number: u64, change: Change)
    requires { CanChange change place.old.row.value }
    ensures { ChangesAll number place.old.door_serial (changed_by change) place.old place.new }
{
    if place.number == number {
        apply(place.row.as_mut(), change);
    }
}

// The row is pending in this round.
fn put_round(row: &mut GrantRow, round: KeptRound)
    ensures { row.new ≡ in_round round row.old }
{
    row.approved = false;
    row.round = Some(round);
}

// The row is pending in this round, where it has this number.
fn pend_place(place: &mut GrantPlace, number: u64, round: KeptRound)
    ensures { ChangesAll number place.old.door_serial (in_round round) place.old place.new }
{
    if place.number == number {
        put_round(place.row.as_mut(), round);
    }
}

// The row has this continuation value.
fn put_door(row: &mut GrantRow, value: [u8; 32], earliest: u64)
    ensures { row.new ≡ with_door value earliest row.old }
{
    row.door = value;
    row.earliest = earliest;
}

// The row has a new continuation value, where it has this number.
fn renew_place(place: &mut GrantPlace, number: u64, value: [u8; 32], serial: u64, earliest: u64)
    ensures { ChangesAll number serial (with_door value earliest) place.old place.new }
{
    if place.number == number {
        place.door_serial = serial;
        put_door(place.row.as_mut(), value, earliest);
    }
}

// The place has this continuation value.
fn has_door(place: &GrantPlace, door: &Listed) -> bool
    ensures { result ≡ is_door_of door.now place.now }
{
    place.number == door.number && place.door_serial == door.key
}

// What stands at this place has this continuation value.
fn has_door_at(places: &[GrantPlace], at: usize, door: &Listed) -> bool
    ensures { result ≡ where_some (is_door_of door.now) (slice_get places.now at) }
{
    match places.get(at) {
        Some(place) => has_door(place, door),
        None => false,
    }
}

// The continuation value with this serial is that of a row.
fn is_current(places: &[GrantPlace], door: &Listed) -> bool
    requires { IsAscending (map (λ (place : GrantPlace). place.number) places.now) }
    ensures { result ≡ is_current_door places.now door.now }
{
    let at = place_of(places, door.number);
    has_door_at(places, at, door)
}

// Leaves out the continuation values that rows had before.
fn drop_stale(doors: &mut Vec<Listed>, places: &[GrantPlace])
    requires { IsAscending (map (λ (place : GrantPlace). place.number) places.now) }
    ensures { doors.new.items ≡ filter (is_current_door places.now) doors.old.items }
{
    doors.retain(|door| is_current(places, door));
}

impl GrantTable {
    /// No rows. Takes no memory.
    pub fn new(alloc: Global) -> GrantTable
        ensures rows { result.rows ≡ [] }
        ensures doors { result.doors_below ≡ 0 }
    {
        GrantTable {
            places: Vec::new(alloc),
            doors: Vec::new(alloc),
            doors_below: 0,
            handles: NumbersByKey::new(alloc),
            codes: OpenCodes::new(alloc),
            swept: 0,
        }
    }

    /// How many rows there are.
    pub fn len(&self) -> usize
        ensures { result ≡ length self.now.rows }
    {
        self.places.len()
    }

    /// The grant with this number. A step is a comparison of numbers.
    pub fn find<L: Ledger>(&self, number: u64, steps: &mut Steps<L>) -> Option<&GrantRow>
        ensures row { option_map (λ row. row.now) result ≡ row_by_number number self.now.rows }
        ensures cost { 2 ^ (steps.new - steps.old) ≤ 2 * length self.now.rows + 1 }
    {
        let places = self.places.as_slice();
        let at = place(places, number, steps);
        numbered(places, at, number)
    }

    /// The grant with this number, uncounted.
    pub fn by_number(&self, number: u64) -> Option<&GrantRow>
        ensures { option_map (λ row. row.now) result ≡ row_by_number number self.now.rows }
    {
        let places = self.places.as_slice();
        let at = place_of(places, number);
        numbered(places, at, number)
    }

    /// There is a grant with this number.
    pub fn has(&self, number: u64) -> bool
        ensures { result ≡ has_grant number self.now.rows }
    {
        self.by_number(number).is_some()
    }

    /// The grant with this number is approved.
    pub fn is_approved(&self, number: u64) -> bool
        ensures { result ≡ is_approved_grant number self.now.rows }
    {
        match self.by_number(number) {
            Some(row) => row.approved,
            None => false,
        }
    }

    /// The grant that this continuation value names.
    pub fn by_door(&self, value: &[u8]) -> Option<&GrantRow>
        ensures { option_map (λ row. row.now) result ≡ row_by_door value.now self.now.rows }
    {
        match serial_in_value(value) {
            Some(serial) => {
                let doors = self.doors.as_slice();
                let at = place_of(doors, serial);
                match number_at(doors, at, serial) {
                    Some(number) => with_door(self.by_number(number), value),
                    None => None,
                }
            }
            None => None,
        }
    }

    /// The grant with the interaction of this name in which the user may still decide.
    pub fn by_interaction(&self, now: u64, name: InteractionName) -> Option<&GrantRow>
        ensures { option_map (λ row. row.now) result
            ≡ option_map (λ (i : Interaction). i.row) (newest (interaction_where (goes_by name.entry) now) self.now.rows) }
    {
        match name {
            InteractionName::Handle(handle) => self.by_handle(now, handle),
            InteractionName::Code(code) => self.by_code(now, code),
        }
    }

    // The grant with the interaction of this handle in which the user may still decide.
    fn by_handle(&self, now: u64, handle: &[u8]) -> Option<&GrantRow>
        ensures { option_map (λ row. row.now) result
            ≡ option_map (λ (i : Interaction). i.row) (newest (interaction_where (λ (round : RoundNote). same_text round.handle handle.now) now) self.now.rows) }
    {
        let listed = self.handles.of(handle_key(handle));
        last_open(
            self.places.as_slice(),
            listed,
            now,
            InteractionName::Handle(handle),
        )
    }

    // The grant with the interaction of this user code in which the user may still decide. Where the index has all codes that may be asked for, a search in it
    // tells the grant.
    fn by_code(&self, now: u64, code: &[u8; 8]) -> Option<&GrantRow>
        ensures { option_map (λ row. row.now) result
            ≡ option_map (λ (i : Interaction). i.row) (newest (interaction_where (λ (round : RoundNote). is_text code.now round.code) now) self.now.rows) }
    {
        let places = self.places.as_slice();
        let name = InteractionName::Code(code);
        if now < self.swept || !self.codes.complete {
            return last_open_of_all(places, now, name);
        }
        match self.codes.number(code) {
            Some(number) => open_at(places, number, now, name),
            None => None,
        }
    }

    /// All user codes from that of this number up to that of the result are those of interactions in which the user may still decide. It is the first whose
    /// code
    /// is not, or with which another letter begins, where the rows were swept at this moment.
    pub fn past_taken(&self, now: u64, number: u64) -> u64
        requires { number < 20 ^ 8 }
        ensures low { number ≤ result }
        ensures high { result ≤ 20 ^ 8 }
        ensures taken { (k : ℕ) → number ≤ k → k < result → is_some (interaction_by_code now (code_text k) self.now.rows) ≡ true }
    {
        if self.swept < now {
            return number;
        }
        self.codes.run_end(number)
    }

    // Leaves out of the index of continuation values what grants had before, where that is more than there are rows.
    fn drop_former(&mut self)
        ensures rows { self.new.rows ≡ self.old.rows }
        ensures doors { self.new.doors_below ≡ self.old.doors_below }
    {
        if self.doors.len() / 2 > self.places.len() {
            drop_stale(&mut self.doors, self.places.as_slice());
        }
    }

    // Leaves out the handles of rounds that grants had before, where they are more than there are rows.
    fn drop_former_handles(&mut self)
        ensures rows { self.new.rows ≡ self.old.rows }
        ensures doors { self.new.doors_below ≡ self.old.doors_below }
    {
        if self.handles.len() / 2 > self.places.len() {
            drop_unnamed(&mut self.handles, self.places.as_slice());
        }
    }

    /// Takes memory for two changes that take room: a new continuation value, and a row or a round. An `Err` changes no row.
    pub fn reserve(&mut self) -> Result<(), Mem>
        ensures rows { self.new.rows ≡ self.old.rows }
        ensures doors { self.new.doors_below ≡ self.old.doors_below }
        ensures ok { OnOk result (2 ≤ self.new.spare) }
    {
        self.drop_former();
        self.drop_former_handles();
        if self.places.reserve(2).is_err() {
            return Err(Mem);
        }
        if self.doors.reserve(2).is_err() {
            return Err(Mem);
        }
        self.handles.reserve(2)?;
        self.codes.reserve(2)
    }

    /// Appends a row, which has a greater number than all, with a continuation value that begins with this serial. Takes no memory.
    pub fn insert(&mut self, row: Box<GrantRow>, serial: u64)
        requires room { 0 < self.old.spare }
        requires above { All (λ (other : GrantRow). other.number < row.value.number) self.old.rows }
        requires door { BeginsWith serial row.value.door }
        requires fresh { self.old.doors_below ≤ serial }
        requires small { serial < 2 ^ 64 - 1 }
        ensures rows { self.new.rows ≡ self.old.rows ++ row.value ∷ [] }
        ensures doors { self.new.doors_below ≡ serial + 1 }
    {
        let number = row.number;
        list_handle(&mut self.handles, number, &row.as_ref().round);
        let code = open_code(&row.as_ref().round, self.swept);
        self.codes.change(number, &None, &code);
        let place = GrantPlace {
            number,
            door_serial: serial,
            row,
        };
        let door = Listed {
            key: serial,
            number,
        };
        self.doors.push_reserved(door);
        self.doors_below = serial + 1;
        self.places.push_reserved(place);
    }

    /// Changes the row of a grant. Takes no memory.
    pub fn change(&mut self, number: u64, change: Change)
        requires { All (CanChange change) self.old.rows }
        ensures rows { self.new.rows ≡ change_grant number (changed_by change) self.old.rows }
        ensures spare { self.new.spare ≡ self.old.spare }
        ensures doors { self.new.doors_below ≡ self.old.doors_below }
    {
        let at = place_of(self.places.as_slice(), number);
        if at < self.places.len() {
            let place = &mut self.places[at];
            let before = open_code_at(place, self.swept);
            change_place(place, number, change);
            let after = open_code_at(place, self.swept);
            self.codes.change(place.number, &before, &after);
        }
    }

    /// Gives a grant a new continuation value, which begins with this serial; a poll may present it from `earliest` on. Takes no memory.
    pub fn renew_door(&mut self, number: u64, value: [u8; 32], serial: u64, earliest: u64)
        requires room { 0 < self.old.spare }
        requires door { BeginsWith serial value }
        requires fresh { self.old.doors_below ≤ serial }
        requires small { serial < 2 ^ 64 - 1 }
        ensures rows { self.new.rows ≡ change_grant number (with_door value earliest) self.old.rows }
        ensures spare { self.old.spare ≤ self.new.spare + 1 }
        ensures doors { self.new.doors_below ≡ serial + 1 }
    {
        let door = Listed {
            key: serial,
            number,
        };
        self.doors.push_reserved(door);
        self.doors_below = serial + 1;
        let at = place_of(self.places.as_slice(), number);
        if at < self.places.len() {
            renew_place(&mut self.places[at], number, value, serial, earliest);
        }
    }

    /// A grant is pending in a new round. Takes no memory.
    pub fn pend(&mut self, number: u64, round: KeptRound)
        requires room { 0 < self.old.spare }
        ensures rows { self.new.rows ≡ change_grant number (in_round round) self.old.rows }
        ensures doors { self.new.doors_below ≡ self.old.doors_below }
    {
        self.handles.list(handle_key(&round.round().handle), number);
        let at = place_of(self.places.as_slice(), number);
        if at < self.places.len() {
            let place = &mut self.places[at];
            let before = open_code_at(place, self.swept);
            pend_place(place, number, round);
            let after = open_code_at(place, self.swept);
            self.codes.change(place.number, &before, &after);
        }
    }

    /// Takes out the grant with this number. Takes no memory.
    pub fn finalize(&mut self, number: u64)
        ensures rows { self.new.rows ≡ drop_grant number self.old.rows }
        ensures spare { self.old.spare ≤ self.new.spare }
        ensures doors { self.new.doors_below ≡ self.old.doors_below }
    {
        let at = place_of(self.places.as_slice(), number);
        if at < self.places.len() && self.places[at].number == number {
            let gone = self.places.remove(at);
            let before = open_code_at(&gone, self.swept);
            self.codes.change(number, &before, &None);
        }
    }

    /// Takes out what is finalized at now. Takes no memory.
    pub fn sweep(&mut self, now: u64)
        ensures rows { self.new.rows ≡ sweep_grants now self.old.rows }
        ensures spare { self.old.spare ≤ self.new.spare }
        ensures doors { self.new.doors_below ≡ self.old.doors_below }
    {
        self.places.retain(|place| lasts(place, now));
        self.swept = self.swept.max(now);
        drop_closed(&mut self.codes.lists, self.places.as_slice(), self.swept);
    }
}
