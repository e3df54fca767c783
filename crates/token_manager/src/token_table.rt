//! The rows of tokens.
ghost use Rattle.std.specs.Prelude.{◌≡◌, ◌+◌, ◌-◌, ◌*◌, ◌^◌, ◌<◌, ◌≤◌, ◌==◌, nat_le, not, [], ◌∷◌, ◌++◌, length, map, filter};
ghost use Rattle.std.specs.Prelude.{option_map, slice_get, vec_len, vec_capacity, IfSome, OnOk};
ghost use Rattle.std.specs.Option.{option_and_then};
ghost use Rattle.std.specs.List.{All, AllPairs, count_by, list_any};
ghost use Rattle.gnap_model.specs.Common.{same_text, some_if};
ghost use Rattle.gnap_tables.specs.declared.rows.TokenRow.{TokenRow};
ghost use Rattle.gnap_tables.specs.Tables.{sweep_tokens, drop_tokens_of, drop_token, change_token, with_retirement};
ghost use Rattle.gnap_tables.specs.RowSearches.{row_by_manage, live_rows};
ghost use Rattle.gnap_tables.specs.ActionsByRows.{pass_live, rows_of_others};
ghost use Rattle.ordered_search.specs.Order.{IsAscending};
ghost use Rattle.grant_states.specs.declared.numbers_by_key.Listed.{Listed};
ghost use Rattle.grant_states.specs.Listed.{where_some};
ghost use Rattle.token_manager.specs.Tokens.{AreTokenRows, IsTokenRow, AreOfApproved, row_by_value, token_in, is_this, is_among, Marks};
ghost use Rattle.token_manager.specs.Tokens.{lasts_at, is_lasting, is_lasting_elsewhere, one_if};
ghost use Rattle.token_manager.specs.declared.token_table.TokenPlace.{TokenPlace};

use bytes_and_lists::memory::Mem;
use gnap_tables::rows::TokenRow;
use grant_states::{GrantTable, Listed, NumbersByKey, serial_in_value};
use ordered_search::{Keyed, Steps, place, place_of};
use std::alloc::Global;
use std::marker::{Brand, Model};
use std::sync::ledger::{Blank, Ledger};

/// So many tokens may be live.
pub const LIVE_LIMIT: usize = 65_536;

/// A row at its place. Its serial and the number of its grant stand beside it, so that searches and passes read no rows.
#[derive(Drop)]
struct TokenPlace {
    serial: u64,
    grant: u64,
    row: Box<TokenRow>,
}

impl Keyed for TokenPlace {
    ghost key_of = { λ place. place.serial };

    fn key(&self) -> u64 {
        self.serial
    }
}

/// The rows of the tokens that can be managed, in order of their serials, with an index by their grants.
#[derive(Drop)]
pub struct TokenTable {
    places: Vec<TokenPlace>,
    serials: NumbersByKey,
    // The moment of the last sweep, and how many of the rows weren't retired and ended after it.
    swept: u64,
    lasting: usize,
}

impl Model for TokenTable {
    ghost use Rattle.std.specs.Prelude.{◌≡◌, map, ◌-◌, min, vec_len, vec_capacity};
    ghost use Rattle.std.specs.List.{count_by};
    ghost use Rattle.token_manager.specs.Tokens.{StoredTokens, AreTokenPlaces, AreListed, token_in, is_lasting};

    ghost Value = { StoredTokens };

    ghost view = { λ s. record { rows = map token_in s.places.items; spare = min (vec_capacity s.places - vec_len s.places) s.serials.spare } };

    ghost invariant = { λ s. AreTokenPlaces s.places.items × AreListed s.serials.listed s.places.items
        × (s.lasting ≡ count_by (is_lasting s.swept) s.places.items) };
}

// The row at a place.
fn row_at(places: &[TokenPlace], at: usize) -> Option<&TokenRow>
    ensures { option_map (λ row. row.now) result ≡ option_map token_in (slice_get places.now at) }
{
    match places.get(at) {
        Some(place) => Some(place.row.as_ref()),
        None => None,
    }
}

// The row, where it has this value.
fn with_value<'a>(row: Option<&'a TokenRow>, value: &[u8]) -> Option<&'a TokenRow>
    ensures { option_map (λ row. row.now) result
        ≡ option_and_then (λ (row : TokenRow). some_if (same_text row.value value.now) row) (option_map (λ row. row.now) row.entry) }
{
    match row {
        Some(row) if row.value.as_slice() == value => Some(row),
        _ => None,
    }
}

// The row, where it has this management value.
fn with_manage<'a>(row: Option<&'a TokenRow>, value: &[u8]) -> Option<&'a TokenRow>
    ensures { option_map (λ row. row.now) result
        ≡ option_and_then (λ (row : TokenRow). some_if (same_text row.manage value.now) row) (option_map (λ row. row.now) row.entry) }
{
    match row {
        Some(row) if row.manage.as_slice() == value => Some(row),
        _ => None,
    }
}

// The row isn't retired, and its end is after this moment.
fn lasts(row: &TokenRow, moment: u64) -> bool
    ensures { result ≡ lasts_at moment row.now }
{
    !row.retired && moment < row.until
}

// One where the row at a place isn't retired and ends after this moment, else none.
fn one_lasting(place: &TokenPlace, moment: u64) -> usize
    ensures { result ≡ one_if (is_lasting moment place.now) }
{
    if lasts(place.row.as_ref(), moment) {
        1
    } else {
        0
    }
}

// How many rows aren't retired and end after this moment.
fn lasting_count(places: &[TokenPlace], moment: u64) -> usize
    ensures { result ≡ count_by (is_lasting moment) places.now }
{
    let mut count = 0;
    for place in places {
        if lasts(place.row.as_ref(), moment) {
            count += 1;
        }
    }
    count
}

// How many of them are of other grants, by a pass over all.
fn lasting_elsewhere(places: &[TokenPlace], number: u64, moment: u64) -> usize
    ensures { result ≡ count_by (is_lasting_elsewhere moment number) places.now }
{
    let mut count = 0;
    for place in places {
        if place.grant != number && lasts(place.row.as_ref(), moment) {
            count += 1;
        }
    }
    count
}

// One where the token with this serial is the grant's, isn't retired and ends after this moment, else none.
fn own_lasting(places: &[TokenPlace], grant: u64, serial: u64, moment: u64) -> usize
    requires { AllPairs (λ (a b : TokenPlace). a.serial < b.serial) places.now }
    ensures { result ≡ count_by (is_lasting moment) (filter (is_this grant serial) places.now) }
{
    let at = place_of(places, serial);
    if at < places.len() && places[at].serial == serial && places[at].grant == grant {
        one_lasting(&places[at], moment)
    } else {
        0
    }
}

// The number is at most the former one, where there is one.
fn is_within(number: u64, former: Option<u64>) -> bool
    ensures { result ≡ where_some (nat_le number) former }
{
    match former {
        Some(greatest) => number <= greatest,
        None => false,
    }
}

// Of so many lasting rows, how many aren't the grant's, whose serials are these. `None` where they don't ascend, since one could then be taken off twice.
fn lasting_without(
    places: &[TokenPlace],
    grant: u64,
    owned: &[Listed],
    moment: u64,
    lasting: usize,
) -> Option<usize>
    requires order { AllPairs (λ (a b : TokenPlace). a.serial < b.serial) places.now }
    requires counted { lasting ≡ count_by (is_lasting moment) places.now }
    ensures { IfSome result (λ left.
        left ≡ count_by (is_lasting moment) (filter (λ (place : TokenPlace). not (is_among grant owned.now place)) places.now)) }
{
    let mut left = lasting;
    let mut former: Option<u64> = None;
    for one in owned {
        if is_within(one.number, former) {
            return None;
        }
        left -= own_lasting(places, grant, one.number, moment);
        former = Some(one.number);
    }
    Some(left)
}

// The row is marked as retired, where it has this serial.
fn mark(place: &mut TokenPlace, serial: u64)
    ensures { Marks serial place.old place.new }
{
    if place.serial == serial {
        place.row.as_mut().retired = true;
    }
}

// Takes out the token with this serial, where it is the grant's. Of the rows so many last at this moment, and after it so many as the result.
fn take_out(
    places: &mut Vec<TokenPlace>,
    grant: u64,
    serial: u64,
    moment: u64,
    lasting: usize,
) -> usize
    requires order { AllPairs (λ (a b : TokenPlace). a.serial < b.serial) places.old.items }
    requires counted { lasting ≡ count_by (is_lasting moment) places.old.items }
    ensures items { places.new.items ≡ filter (λ (place : TokenPlace). not (is_this grant serial place)) places.old.items }
    ensures fewer { vec_len places.new ≤ vec_len places.old }
    ensures capacity { vec_capacity places.new ≡ vec_capacity places.old }
    ensures counted { result ≡ count_by (is_lasting moment) places.new.items }
{
    let at = place_of(places.as_slice(), serial);
    if at < places.len() && places[at].serial == serial && places[at].grant == grant {
        let gone = places.remove(at);
        lasting - one_lasting(&gone, moment)
    } else {
        lasting
    }
}

// Takes out the tokens with these serials, where they are the grant's, and counts the lasting rows as before.
fn take_out_all(
    places: &mut Vec<TokenPlace>,
    grant: u64,
    owned: &[Listed],
    moment: u64,
    lasting: usize,
) -> usize
    requires order { AllPairs (λ (a b : TokenPlace). a.serial < b.serial) places.old.items }
    requires counted { lasting ≡ count_by (is_lasting moment) places.old.items }
    ensures items { places.new.items ≡ filter (λ (place : TokenPlace). not (is_among grant owned.now place)) places.old.items }
    ensures fewer { vec_len places.new ≤ vec_len places.old }
    ensures capacity { vec_capacity places.new ≡ vec_capacity places.old }
    ensures counted { result ≡ count_by (is_lasting moment) places.new.items }
{
    let mut left = lasting;
    for one in owned {
        left = take_out(places, grant, one.number, moment, left);
    }
    left
}

// The key of the item at a place.
fn key_at<T: Keyed>(items: &[T], at: usize) -> Option<u64>
    ensures { result ≡ option_map T.key_of (slice_get items.now at) }
{
    match items.get(at) {
        Some(item) => Some(item.key()),
        None => None,
    }
}

// An item has this key.
fn has_key<T: Keyed>(items: &[T], key: u64) -> bool
    requires { IsAscending (map T.key_of items.now) }
    ensures { result ≡ list_any (λ item. T.key_of item == key) items.now }
{
    match key_at(items, place_of(items, key)) {
        Some(found) => found == key,
        None => false,
    }
}

// Leaves out the serials that no row has.
fn drop_missing(serials: &mut NumbersByKey, places: &[TokenPlace])
    requires { IsAscending (map (λ (place : TokenPlace). place.serial) places.now) }
    ensures { serials.new.listed ≡ filter (λ (one : Listed). list_any (λ (place : TokenPlace). place.serial == one.number) places.now) serials.old.listed }
{
    serials.keep(|one| has_key(places, one.number));
}

// The same search with a ledger of its own.
fn find_from<'a, L: Ledger>(
    table: &'a TokenTable,
    value: &[u8],
    blank: Blank,
) -> Option<&'a TokenRow>
    requires name { blank.name ≡ L.name }
    requires parts { blank.parts ≡ L.parts }
    requires some { 0 < blank.parts }
    ensures { option_map (λ row. row.now) result ≡ row_by_value value.now table.now.rows }
{
    let mut steps = Steps::<L>::new(blank);
    table.find(value, &mut steps)
}

// The same search with a ledger of its own.
fn find_managed_from<'a, L: Ledger>(
    table: &'a TokenTable,
    value: &[u8],
    blank: Blank,
) -> Option<&'a TokenRow>
    requires name { blank.name ≡ L.name }
    requires parts { blank.parts ≡ L.parts }
    requires some { 0 < blank.parts }
    ensures { option_map (λ row. row.now) result ≡ row_by_manage value.now table.now.rows }
{
    let mut steps = Steps::<L>::new(blank);
    table.find_managed(value, &mut steps)
}

impl TokenTable {
    /// No rows. Takes no memory.
    pub fn new(alloc: Global) -> TokenTable
        ensures { result.rows ≡ [] }
    {
        TokenTable {
            places: Vec::new(alloc),
            serials: NumbersByKey::new(alloc),
            swept: 0,
            lasting: 0,
        }
    }

    /// How many rows there are. They stand in the order of their serials.
    pub fn len(&self) -> usize
        ensures count { result ≡ length self.now.rows }
        ensures ordered { AreTokenRows self.now.rows }
    {
        self.places.len()
    }

    // Leaves out of the index what no row has, where it is longer than twice the rows.
    fn drop_former(&mut self)
        ensures { self.new.rows ≡ self.old.rows }
    {
        if self.serials.len() / 2 > self.places.len() {
            drop_missing(&mut self.serials, self.places.as_slice());
        }
    }

    /// Takes memory for so many rows more. An `Err` changes no row.
    pub fn reserve(&mut self, more: usize) -> Result<(), Mem>
        ensures rows { self.new.rows ≡ self.old.rows }
        ensures ok { OnOk result (more ≤ self.new.spare) }
    {
        self.drop_former();
        if self.places.reserve(more).is_err() {
            return Err(Mem);
        }
        self.serials.reserve(more)
    }

    /// Appends a row, which has a greater serial than all. Takes no memory.
    pub fn issue(&mut self, row: Box<TokenRow>)
        requires room { 0 < self.old.spare }
        requires is { IsTokenRow row.value }
        requires above { All (λ (other : TokenRow). other.serial < row.value.serial) self.old.rows }
        ensures rows { self.new.rows ≡ self.old.rows ++ row.value ∷ [] }
        ensures spare { self.old.spare ≡ self.new.spare + 1 }
    {
        let place = TokenPlace {
            serial: row.serial,
            grant: row.grant,
            row,
        };
        let one = one_lasting(&place, self.swept);
        self.serials.list(place.grant, place.serial);
        self.places.push_reserved(place);
        let _many = self.places.len();
        self.lasting += one;
    }

    /// The row with this value. A step is a comparison of serials.
    pub fn find<L: Ledger>(&self, value: &[u8], steps: &mut Steps<L>) -> Option<&TokenRow>
        ensures row { option_map (λ row. row.now) result ≡ row_by_value value.now self.now.rows }
        ensures cost { 2 ^ (steps.new - steps.old) ≤ 2 * length self.now.rows + 1 }
    {
        match serial_in_value(value) {
            Some(serial) => {
                let places = self.places.as_slice();
                let at = place(places, serial, steps);
                with_value(row_at(places, at), value)
            }
            None => None,
        }
    }

    /// The row with this management value, whose serial is the one after the token's. A step is a comparison of serials.
    pub fn find_managed<L: Ledger>(&self, value: &[u8], steps: &mut Steps<L>) -> Option<&TokenRow>
        ensures row { option_map (λ row. row.now) result ≡ row_by_manage value.now self.now.rows }
        ensures cost { 2 ^ (steps.new - steps.old) ≤ 2 * length self.now.rows + 1 }
    {
        match serial_in_value(value) {
            Some(serial) => {
                let places = self.places.as_slice();
                let at = place(places, serial.saturating_sub(1), steps);
                with_manage(row_at(places, at), value)
            }
            None => None,
        }
    }

    /// The row with this value, uncounted.
    pub fn by_value(&self, value: &[u8]) -> Option<&TokenRow>
        ensures { option_map (λ row. row.now) result ≡ row_by_value value.now self.now.rows }
    {
        find_from::<Brand>(self, value, Blank::new(1))
    }

    /// The row with this management value, uncounted.
    pub fn by_manage(&self, value: &[u8]) -> Option<&TokenRow>
        ensures { option_map (λ row. row.now) result ≡ row_by_manage value.now self.now.rows }
    {
        find_managed_from::<Brand>(self, value, Blank::new(1))
    }

    // How many rows aren't retired and end after this moment. The table knows it of the moment of the last sweep.
    fn lasting_at(&self, moment: u64) -> usize
        ensures { result ≡ length (filter (lasts_at moment) self.now.rows) }
    {
        if moment == self.swept {
            self.lasting
        } else {
            lasting_count(self.places.as_slice(), moment)
        }
    }

    /// The live rows and so many more are more than may be live. Rows that aren't retired are of approved grants, so the count of the last sweep tells it.
    pub fn passes_limit_with(&self, grants: &GrantTable, now: u64, more: usize) -> bool
        requires more { more ≤ 16 }
        requires approved { AreOfApproved grants.now.rows self.now.rows }
        ensures { result ≡ pass_live (live_rows now grants.now.rows self.now.rows) more }
    {
        self.lasting_at(now) > LIVE_LIMIT - more
    }

    // How many rows of other grants aren't retired and end after this moment: those of all, less the grant's own.
    fn lasting_of_others(&self, number: u64, moment: u64) -> usize
        ensures { result ≡ length (rows_of_others number (filter (lasts_at moment) self.now.rows)) }
    {
        let places = self.places.as_slice();
        let owned = self.serials.of(number);
        match lasting_without(places, number, owned, moment, self.lasting_at(moment)) {
            Some(left) => left,
            None => lasting_elsewhere(places, number, moment),
        }
    }

    /// The live rows of other grants than this one and so many more are more than may be live.
    pub fn others_pass_limit_with(
        &self,
        grants: &GrantTable,
        number: u64,
        now: u64,
        more: usize,
    ) -> bool
        requires more { more ≤ 16 }
        requires approved { AreOfApproved grants.now.rows self.now.rows }
        ensures { result ≡ pass_live (rows_of_others number (live_rows now grants.now.rows self.now.rows)) more }
    {
        self.lasting_of_others(number, now) > LIVE_LIMIT - more
    }

    /// Marks the token with this serial as revoked. Takes no memory.
    pub fn revoke(&mut self, serial: u64)
        ensures rows { self.new.rows ≡ change_token serial with_retirement self.old.rows }
        ensures spare { self.new.spare ≡ self.old.spare }
    {
        let at = place_of(self.places.as_slice(), serial);
        if at < self.places.len() {
            let place = &mut self.places[at];
            let before = one_lasting(place, self.swept);
            mark(place, serial);
            let after = one_lasting(place, self.swept);
            self.lasting = self.lasting - before + after;
        }
    }

    /// Takes out the token with this serial. Takes no memory.
    pub fn retire(&mut self, serial: u64)
        ensures rows { self.new.rows ≡ drop_token serial self.old.rows }
        ensures spare { self.old.spare ≤ self.new.spare }
    {
        let at = place_of(self.places.as_slice(), serial);
        if at < self.places.len() && self.places[at].serial == serial {
            let gone = self.places.remove(at);
            let one = one_lasting(&gone, self.swept);
            self.serials.unlist(gone.grant, gone.serial);
            self.lasting -= one;
        }
    }

    /// Takes out the tokens of a grant. Takes no memory.
    pub fn retire_all(&mut self, grant: u64)
        ensures rows { self.new.rows ≡ drop_tokens_of grant self.old.rows }
        ensures spare { self.old.spare ≤ self.new.spare }
    {
        self.lasting = take_out_all(
            &mut self.places,
            grant,
            self.serials.of(grant),
            self.swept,
            self.lasting,
        );
        self.serials.unlist_all(grant);
    }

    /// Takes out the tokens whose grant isn't among these, at this moment. Takes no memory.
    pub fn sweep(&mut self, grants: &GrantTable, moment: u64)
        ensures rows { self.new.rows ≡ sweep_tokens grants.now.rows self.old.rows }
        ensures spare { self.old.spare ≤ self.new.spare }
    {
        self.places.retain(|place| grants.has(place.grant));
        self.swept = moment;
        self.lasting = lasting_count(self.places.as_slice(), moment);
    }
}
