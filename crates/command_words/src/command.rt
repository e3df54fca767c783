//! The commands, and which of them words are.
ghost use Rattle.std.specs.Prelude.{◌≡◌, ◌+◌, ◌<◌, ◌≤◌, ◌⊎◌, ℕ, List, Option, Some, None, false, true, drop, [], ◌∷◌, IfOk, IfErr, IfSome, IfNone, map, string_bytes, option_map, option_to_list, option_copied};
ghost use Rattle.command_words.specs.Commands.{AreRead, IsWithinRanges, is_argument, is_nonce_word, is_of, may_be_nonce, replies_of, kind_of, replay_of, field_of, with_three, with_four, four_or_five, sign_words, verify_words, AreFewWorkers, served_setup, sets_words, grants_service, as_words, rs_words, client_words, long_method, hash_of, load_words, counts_of, count_among, command_named, command_of};
ghost use Rattle.message_signature.specs.Marks.{is_nonce};
ghost use Rattle.command_words.specs.Numbers.{number_within};
ghost use Rattle.command_words.specs.declared.wrong_words.WrongWords.TheVariants.{Word, OutOfMemory};
ghost use Rattle.command_words.specs.declared.wrong_words.WordForm.TheVariants as forms;

use crate::numbers::number_within;
use crate::positionals::exactly;
use crate::wrong_words::{WordForm, WrongWords};
use bytes_and_lists::bytes::Bytes;
use bytes_and_lists::memory::Mem;
use message_signature::is_nonce;
use printed_answers::{HashedTexts, Kind};
use std::alloc::Global;

/// A setup in a file, and where and how it is served.
#[derive(Drop)]
pub struct ServedSetup {
    /// The file that is the setup.
    pub config: Bytes,
    /// The address.
    pub listen: Bytes,
    /// How many workers there are, 1 to 64.
    pub workers: usize,
    /// How many connections each of them takes, at most 1,000,000.
    pub quota: u32,
}

/// What is served of a setup.
#[derive(Drop)]
pub enum Service {
    /// `as CONFIG LISTEN WORKERS QUOTA`: its authorization server.
    Grants,
    /// `as CONFIG LISTEN WORKERS QUOTA PAIRS`: its authorization server, which derives tokens for the clients of the pairs in this file.
    Derivations(Bytes),
    /// `sets CONFIG LISTEN WORKERS QUOTA`: its resource sets.
    Sets,
}

/// What is to be done, with the words that say to what.
#[derive(Drop)]
pub enum Command {
    /// `replay FILE`: the lines of the file are a setup and calls, and the calls are answered.
    Replay(Bytes),
    /// `field KIND FILE`: the text of the file is a structured field, whose canonical text is printed.
    Field(Kind, Bytes),
    /// `sign CONFIG KEY CREATED FILE`, or that and `NONCE`: the message of the file is printed with a signature by a key of the setup.
    Sign(Bytes, Bytes, u64, Bytes, Option<Bytes>),
    /// `verify CONFIG NOW FILE`: the key of the setup is printed that signed the message of the file.
    Verify(Bytes, u64, Bytes),
    /// This is served of a setup.
    Serve(Service, ServedSetup),
    /// `rs CONFIG LISTEN SERVER QUOTA`, or that and `CACHE`: the resource server of a setup is served at an address, for so many connections, and introspects
    /// tokens at another. With CACHE it keeps so many replies for a while.
    Rs(Bytes, Bytes, Bytes, u32, Option<usize>),
    /// `client CONFIG ADDRESS SCRIPT`: a client of a configuration carries out the lines of a script, with the server at an address.
    Client(Bytes, Bytes, Bytes),
    /// `hash METHOD CLIENT SERVER REF URI`: the interaction hash of the texts is printed.
    Hash(HashedTexts),
    /// `load N START WORKERS`: so many grants are put through by so many workers, with words from a start, and the replies are counted.
    Load(u32, u64, usize),
}

/// The last second of the year 9999, in seconds since 1970.
const LAST_MOMENT: u64 = 253_402_300_799;

fn is_argument(word: &str) -> bool
    ensures { result ≡ is_argument word.now }
{
    match word.as_bytes() {
        [] => false,
        [first, ..] => *first != b'-',
    }
}

// The word at this place as bytes, where it may be an argument.
fn argument(alloc: Global, place: usize, word: &str) -> Result<Bytes, WrongWords>
    ensures taken { IfOk result (λ bytes. (bytes ≡ word.now) × (is_argument word.now ≡ true)) }
    ensures wrong { IfErr result (λ fault. (fault ≡ OutOfMemory) ⊎ ((fault ≡ Word place forms.Argument) × (is_argument word.now ≡ false))) }
{
    if !is_argument(word) {
        return Err(WrongWords::Word(place, WordForm::Argument));
    }
    match Bytes::from_slice(alloc, word.as_bytes()) {
        Ok(bytes) => Ok(bytes),
        Err(Mem) => Err(WrongWords::OutOfMemory),
    }
}

// The words at this place and the next one as bytes, where they may be arguments.
fn two_arguments(
    alloc: Global,
    place: usize,
    first: &str,
    second: &str,
) -> Result<(Bytes, Bytes), WrongWords>
    requires place { place < 5 }
    ensures taken { IfOk result (λ pair.
        (pair.0 ≡ first.now) × (is_argument first.now ≡ true) × (pair.1 ≡ second.now) × (is_argument second.now ≡ true)) }
    ensures wrong { IfErr result (λ fault. (fault ≡ OutOfMemory) ⊎ ((fault ≡ Word place forms.Argument) × (is_argument first.now ≡ false))
        ⊎ ((fault ≡ Word (place + 1) forms.Argument) × (is_argument second.now ≡ false))) }
{
    let first = argument(alloc, place, first)?;
    Ok((first, argument(alloc, place + 1, second)?))
}

// The word at this place as bytes, where it may be a nonce.
fn nonce(alloc: Global, place: usize, word: &str) -> Result<Bytes, WrongWords>
    ensures taken { IfOk result (λ bytes. (bytes ≡ word.now) × (is_nonce_word word.now ≡ true) × (is_nonce bytes ≡ true)) }
    ensures wrong { IfErr result (λ fault. (fault ≡ OutOfMemory) ⊎ ((fault ≡ Word place forms.Nonce) × (is_nonce_word word.now ≡ false))) }
{
    if !(is_argument(word) && is_nonce(word.as_bytes())) {
        return Err(WrongWords::Word(place, WordForm::Nonce));
    }
    match Bytes::from_slice(alloc, word.as_bytes()) {
        Ok(bytes) => Ok(bytes),
        Err(Mem) => Err(WrongWords::OutOfMemory),
    }
}

// The word at this place as bytes, where it may be a nonce, and none where there is no word.
fn optional_nonce(
    alloc: Global,
    place: usize,
    word: Option<&str>,
) -> Result<Option<Bytes>, WrongWords>
    ensures taken { IfOk result (λ taken. (taken ≡ option_copied word.entry) × (may_be_nonce (option_copied word.entry) ≡ true)
        × IfSome taken (λ n. is_nonce n ≡ true)) }
    ensures wrong { IfErr result (λ fault. (fault ≡ OutOfMemory) ⊎ ((fault ≡ Word place forms.Nonce)
        × (may_be_nonce (option_copied word.entry) ≡ false) × (option_map (is_of forms.Nonce) (option_copied word.entry) ≡ Some false))) }
{
    match word {
        Some(word) => Ok(Some(nonce(alloc, place, word)?)),
        None => Ok(None),
    }
}

// The number that the word at this place is, where it is of a form with this range.
fn number(
    place: usize,
    form: WordForm,
    word: &str,
    least: u64,
    most: u64,
) -> Result<u64, WrongWords>
    ensures taken { IfOk result (λ n. (number_within least most word.now ≡ Some n) × (least ≤ n) × (n ≤ most)) }
    ensures wrong { IfErr result (λ fault. (fault ≡ Word place form) × (number_within least most word.now ≡ None)) }
{
    match number_within(word, least, most) {
        Some(number) => Ok(number),
        None => Err(WrongWords::Word(place, form)),
    }
}

// The number of replies that the word at this place is, which may be left out.
fn optional_replies(place: usize, word: Option<&str>) -> Result<Option<usize>, WrongWords>
    ensures taken { IfOk result (λ cache. (replies_of (option_copied word.entry) ≡ Some cache) × IfSome cache (λ n. (1 ≤ n) × (n ≤ 16384))) }
    ensures wrong { IfErr result (λ fault. (fault ≡ Word place forms.Replies) × (replies_of (option_copied word.entry) ≡ None)
        × (option_map (is_of forms.Replies) (option_copied word.entry) ≡ Some false)) }
{
    match word {
        Some(word) => Ok(Some(number(place, WordForm::Replies, word, 1, 16_384)? as usize)),
        None => Ok(None),
    }
}

fn kind_of(word: &str) -> Option<Kind>
    ensures { result ≡ kind_of word.now }
{
    match word {
        "item" => Some(Kind::Item),
        "list" => Some(Kind::List),
        "dictionary" => Some(Kind::Dictionary),
        _ => None,
    }
}

// Whether a hash method is the long one, where the word names one.
fn long_method(word: &str) -> Option<bool>
    ensures { result ≡ long_method word.now }
{
    match word {
        "sha-256" => Some(false),
        "sha-512" => Some(true),
        _ => None,
    }
}

// The words, where they are three.
fn three(words: &[String]) -> Option<(&str, &str, &str)>
    ensures some { IfSome result (λ w. map string_bytes words.now ≡ w.0.now ∷ w.1.now ∷ w.2.now ∷ []) }
    ensures none { IfNone result ((f : List ℕ → List ℕ → List ℕ → Option Command) → with_three f (map string_bytes words.now) ≡ None) }
{
    match words {
        [first, second, third] => Some((first.as_str(), second.as_str(), third.as_str())),
        _ => None,
    }
}

// The words, where they are four.
fn four(words: &[String]) -> Option<(&str, &str, &str, &str)>
    ensures some { IfSome result (λ w. map string_bytes words.now ≡ w.0.now ∷ w.1.now ∷ w.2.now ∷ w.3.now ∷ []) }
    ensures none { IfNone result ((f : List ℕ → List ℕ → List ℕ → List ℕ → Option Command) → with_four f (map string_bytes words.now) ≡ None) }
{
    match words {
        [first, second, third, fourth] => Some((
            first.as_str(),
            second.as_str(),
            third.as_str(),
            fourth.as_str(),
        )),
        _ => None,
    }
}

// The words, where they are four or five.
fn four_or_five(words: &[String]) -> Option<(&str, &str, &str, &str, Option<&str>)>
    ensures some { IfSome result (λ w. map string_bytes words.now
        ≡ w.0.now ∷ w.1.now ∷ w.2.now ∷ w.3.now ∷ option_to_list (option_copied w.4)) }
    ensures none { IfNone result ((f : List ℕ → List ℕ → List ℕ → List ℕ → Option (List ℕ) → Option Command)
        → four_or_five f (map string_bytes words.now) ≡ None) }
{
    match words {
        [first, second, third, fourth] => Some((
            first.as_str(),
            second.as_str(),
            third.as_str(),
            fourth.as_str(),
            None,
        )),
        [first, second, third, fourth, fifth] => Some((
            first.as_str(),
            second.as_str(),
            third.as_str(),
            fourth.as_str(),
            Some(fifth.as_str()),
        )),
        _ => None,
    }
}

fn replay_of(alloc: Global, words: &[String]) -> Result<Command, WrongWords>
    ensures read { AreRead result (map string_bytes words.now) (replay_of (map string_bytes words.now)) }
    ensures ranges { IfOk result IsWithinRanges }
{
    let [file] = words else {
        return Err(WrongWords::Count);
    };
    Ok(Command::Replay(argument(alloc, 0, file.as_str())?))
}

fn field_of(alloc: Global, words: &[String]) -> Result<Command, WrongWords>
    ensures read { AreRead result (map string_bytes words.now) (field_of (map string_bytes words.now)) }
    ensures ranges { IfOk result IsWithinRanges }
{
    let [kind, file] = words else {
        return Err(WrongWords::Count);
    };
    let Some(kind) = kind_of(kind.as_str()) else {
        return Err(WrongWords::Word(0, WordForm::FieldKind));
    };
    Ok(Command::Field(kind, argument(alloc, 1, file.as_str())?))
}

// A message is signed, with a nonce where there is a word for it.
#[tactic(auto, using(crate::proofs::WordCounts::fifth_wrong))]
fn signature(
    alloc: Global,
    config: &str,
    key: &str,
    created: &str,
    file: &str,
    nonce: Option<&str>,
) -> Result<Command, WrongWords>
    ensures read { AreRead result (config.now ∷ key.now ∷ created.now ∷ file.now ∷ option_to_list (option_copied nonce.entry))
        (sign_words config.now key.now created.now file.now (option_copied nonce.entry)) }
    ensures ranges { IfOk result IsWithinRanges }
{
    let (config, key) = two_arguments(alloc, 0, config, key)?;
    let created = number(2, WordForm::Moment, created, 0, LAST_MOMENT)?;
    let file = argument(alloc, 3, file)?;
    let nonce = optional_nonce(alloc, 4, nonce)?;
    Ok(Command::Sign(config, key, created, file, nonce))
}

fn sign_of(alloc: Global, words: &[String]) -> Result<Command, WrongWords>
    ensures read { AreRead result (map string_bytes words.now) (four_or_five sign_words (map string_bytes words.now)) }
    ensures ranges { IfOk result IsWithinRanges }
{
    match four_or_five(words) {
        Some((config, key, created, file, nonce)) => {
            signature(alloc, config, key, created, file, nonce)
        }
        None => Err(WrongWords::Count),
    }
}

fn verify_of(alloc: Global, words: &[String]) -> Result<Command, WrongWords>
    ensures read { AreRead result (map string_bytes words.now) (with_three verify_words (map string_bytes words.now)) }
    ensures ranges { IfOk result IsWithinRanges }
{
    let Some((config, now, file)) = three(words) else {
        return Err(WrongWords::Count);
    };
    let config = argument(alloc, 0, config)?;
    let now = number(1, WordForm::Moment, now, 0, LAST_MOMENT)?;
    let file = argument(alloc, 2, file)?;
    Ok(Command::Verify(config, now, file))
}

// The first four words of a server of a setup: at most 64 workers, and at most 1,000,000 connections for each.
fn served_setup(
    alloc: Global,
    config: &str,
    listen: &str,
    workers: &str,
    quota: &str,
) -> Result<ServedSetup, WrongWords>
    ensures read { (more : List (List ℕ)) → AreRead result (config.now ∷ listen.now ∷ workers.now ∷ quota.now ∷ more)
        (served_setup config.now listen.now workers.now quota.now) }
    ensures few { IfOk result AreFewWorkers }
{
    let (config, listen) = two_arguments(alloc, 0, config, listen)?;
    Ok(ServedSetup {
        config,
        listen,
        workers: number(2, WordForm::Workers, workers, 1, 64)? as usize,
        quota: number(3, WordForm::Connections, quota, 0, 1_000_000)? as u32,
    })
}

fn sets_of(alloc: Global, words: &[String]) -> Result<Command, WrongWords>
    ensures read { AreRead result (map string_bytes words.now) (with_four sets_words (map string_bytes words.now)) }
    ensures ranges { IfOk result IsWithinRanges }
{
    let Some((config, listen, workers, quota)) = four(words) else {
        return Err(WrongWords::Count);
    };
    let served = served_setup(alloc, config, listen, workers, quota)?;
    Ok(Command::Serve(Service::Sets, served))
}

// The service of an authorization server, which derives tokens where there is a word for a file of pairs.
fn grants_service(alloc: Global, place: usize, pairs: Option<&str>) -> Result<Service, WrongWords>
    ensures taken { IfOk result (λ service. grants_service (option_copied pairs.entry) ≡ Some service) }
    ensures wrong { IfErr result (λ fault. (fault ≡ OutOfMemory) ⊎ ((fault ≡ Word place forms.Argument)
        × (grants_service (option_copied pairs.entry) ≡ None) × (option_map (is_of forms.Argument) (option_copied pairs.entry) ≡ Some false))) }
{
    match pairs {
        Some(pairs) => Ok(Service::Derivations(argument(alloc, place, pairs)?)),
        None => Ok(Service::Grants),
    }
}

// Four words, or five with a file of pairs.
#[tactic(auto, using(crate::proofs::WordCounts::pairs_wrong))]
fn as_of(alloc: Global, words: &[String]) -> Result<Command, WrongWords>
    ensures read { AreRead result (map string_bytes words.now) (four_or_five as_words (map string_bytes words.now)) }
    ensures ranges { IfOk result IsWithinRanges }
{
    let Some((config, listen, workers, quota, pairs)) = four_or_five(words) else {
        return Err(WrongWords::Count);
    };
    let served = served_setup(alloc, config, listen, workers, quota)?;
    Ok(Command::Serve(grants_service(alloc, 4, pairs)?, served))
}

// A resource server at an address, with at most 1,000,000 connections, and with a cache of 1 to 16,384 replies where there is a word for it.
#[tactic(auto, using(crate::proofs::WordCounts::fifth_wrong))]
fn resources(
    alloc: Global,
    config: &str,
    listen: &str,
    server: &str,
    quota: &str,
    cache: Option<&str>,
) -> Result<Command, WrongWords>
    ensures read { AreRead result (config.now ∷ listen.now ∷ server.now ∷ quota.now ∷ option_to_list (option_copied cache.entry))
        (rs_words config.now listen.now server.now quota.now (option_copied cache.entry)) }
    ensures ranges { IfOk result IsWithinRanges }
{
    let (config, listen) = two_arguments(alloc, 0, config, listen)?;
    let server = argument(alloc, 2, server)?;
    let quota = number(3, WordForm::Connections, quota, 0, 1_000_000)?;
    let cache = optional_replies(4, cache)?;
    Ok(Command::Rs(config, listen, server, quota as u32, cache))
}

fn rs_of(alloc: Global, words: &[String]) -> Result<Command, WrongWords>
    ensures read { AreRead result (map string_bytes words.now) (four_or_five rs_words (map string_bytes words.now)) }
    ensures ranges { IfOk result IsWithinRanges }
{
    match four_or_five(words) {
        Some((config, listen, server, quota, cache)) => {
            resources(alloc, config, listen, server, quota, cache)
        }
        None => Err(WrongWords::Count),
    }
}

fn client_of(alloc: Global, words: &[String]) -> Result<Command, WrongWords>
    ensures read { AreRead result (map string_bytes words.now) (with_three client_words (map string_bytes words.now)) }
    ensures ranges { IfOk result IsWithinRanges }
{
    let Some((config, address, script)) = three(words) else {
        return Err(WrongWords::Count);
    };
    let (config, address) = two_arguments(alloc, 0, config, address)?;
    let script = argument(alloc, 2, script)?;
    Ok(Command::Client(config, address, script))
}

fn hash_of(alloc: Global, words: &[String]) -> Result<Command, WrongWords>
    ensures read { AreRead result (map string_bytes words.now) (hash_of (map string_bytes words.now)) }
    ensures ranges { IfOk result IsWithinRanges }
{
    let [method, client, server, reference, endpoint] = words else {
        return Err(WrongWords::Count);
    };
    let Some(long) = long_method(method.as_str()) else {
        return Err(WrongWords::Word(0, WordForm::HashMethod));
    };
    let (client_nonce, server_nonce) = two_arguments(alloc, 1, client.as_str(), server.as_str())?;
    let (reference, endpoint) = two_arguments(alloc, 3, reference.as_str(), endpoint.as_str())?;
    Ok(Command::Hash(HashedTexts {
        long,
        client_nonce,
        server_nonce,
        reference,
        endpoint,
    }))
}

// 1 to 100,000 grants, a start of 64 bits, and 1 to 64 workers.
fn load_of(words: &[String]) -> Result<Command, WrongWords>
    ensures read { AreRead result (map string_bytes words.now) (with_three load_words (map string_bytes words.now)) }
    ensures ranges { IfOk result IsWithinRanges }
{
    let Some((grants, start, workers)) = three(words) else {
        return Err(WrongWords::Count);
    };
    let grants = number(0, WordForm::Grants, grants, 1, 100_000)?;
    let start = number(1, WordForm::Start, start, 0, 18_446_744_073_709_551_615)?;
    let workers = number(2, WordForm::Workers, workers, 1, 64)?;
    Ok(Command::Load(grants as u32, start, workers as usize))
}

/// How many words the command of this name takes, at least and at most, where there is one.
pub(crate) fn counts_of(name: &str) -> Option<(usize, usize)>
    ensures counts { result ≡ counts_of name.now }
    ensures within { IfSome result (λ counts. (1 ≤ counts.0) × (counts.0 ≤ 5) × (1 ≤ counts.1) × (counts.1 ≤ 5)) }
{
    match name {
        "replay" => Some((1, 1)),
        "field" => Some((2, 2)),
        "sign" => Some((4, 5)),
        "verify" => Some((3, 3)),
        "as" => Some((4, 5)),
        "sets" => Some((4, 4)),
        "rs" => Some((4, 5)),
        "client" => Some((3, 3)),
        "hash" => Some((5, 5)),
        "load" => Some((3, 3)),
        _ => None,
    }
}

// Which of its counts of words a command is asked for, where so many are given.
fn count_among(least: usize, most: usize, given: usize) -> usize
    requires least { (1 ≤ least) × (least ≤ 5) }
    requires most { (1 ≤ most) × (most ≤ 5) }
    ensures count { result ≡ count_among least most given }
    ensures within { (1 ≤ result) × (result ≤ 5) }
{
    if given == most { most } else { least }
}

// The command of this name with these words.
fn command_named(alloc: Global, name: &str, words: &[String]) -> Result<Command, WrongWords>
    ensures read { AreRead result (map string_bytes words.now) (command_named name.now (map string_bytes words.now)) }
    ensures ranges { IfOk result IsWithinRanges }
{
    match name {
        "replay" => replay_of(alloc, words),
        "field" => field_of(alloc, words),
        "sign" => sign_of(alloc, words),
        "verify" => verify_of(alloc, words),
        "as" => as_of(alloc, words),
        "sets" => sets_of(alloc, words),
        "rs" => rs_of(alloc, words),
        "client" => client_of(alloc, words),
        "hash" => hash_of(alloc, words),
        "load" => load_of(words),
        _ => Err(WrongWords::NoCommand),
    }
}

// The command of this name with these words, which are read by `clap` as the arguments of a command that takes as many as it may.
fn command_with(alloc: Global, name: &str, arguments: &[String]) -> Result<Command, WrongWords>
    ensures read { AreRead result (map string_bytes arguments.now) (command_named name.now (map string_bytes arguments.now)) }
    ensures ranges { IfOk result IsWithinRanges }
{
    let Some((least, most)) = counts_of(name) else {
        return Err(WrongWords::NoCommand);
    };
    let count = count_among(least, most, arguments.len());
    match exactly(alloc, count, arguments) {
        Ok(Some(taken)) => command_named(alloc, name, taken.as_slice()),
        Ok(None) => Err(WrongWords::Count),
        Err(_) => Err(WrongWords::OutOfMemory),
    }
}

/// The command that the words are. The first word is its name.
///
/// Where memory doesn't run out, an error comes exactly where the words are no command. It says what is wrong with them, and of a single word that isn't
/// of its form, which.
pub fn command_of(alloc: Global, words: &[String]) -> Result<Command, WrongWords>
    ensures read { AreRead result (drop 1 (map string_bytes words.now)) (command_of (map string_bytes words.now)) }
    ensures ranges { IfOk result IsWithinRanges }
{
    match words.split_first() {
        Some((name, arguments)) => command_with(alloc, name.as_str(), arguments),
        None => Err(WrongWords::NoCommand),
    }
}
