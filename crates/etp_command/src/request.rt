// What a line asks, read by its first word.
ghost use Rattle.std.specs.Prelude.{ℕ, ◌≡◌, ◌≤◌, ◌<◌, ◌++◌, ◌∷◌, ◌⊎◌, [], take, drop, length, IfSome, MatchOption, None, Some, not, true};
ghost use Rattle.std.specs.Option.{option_copied, option_map};
ghost use Rattle.etp_words.specs.Words.{words_of};
ghost use Rattle.etp_command.specs.Requests.{request_of, only_number, only_word, order_request, load_request, withdraw_request, query_request};
ghost use Rattle.etp_command.specs.Values.{request_from, query_from, operations_of, IsQueryWithin, IsWithin};

use crate::query::{Query, read_query};
use etp_words::{is, next_word, number_word};

/// The order of a session: the most operations that its laws have, 4 or 5.
#[derive(Clone, Copy, Debug, PartialEq, Eq)]
pub enum ListOrder {
    Four,
    Five,
}

impl ListOrder {
    /// The most operations.
    pub fn operations(self) -> u8
        ensures value { result ≡ operations_of self }
        ensures range { (result ≡ 4) ⊎ (result ≡ 5) }
    {
        match self {
            ListOrder::Four => 4,
            ListOrder::Five => 5,
        }
    }
}

/// What a line asks. A blank line and a comment ask nothing; a line of more than 4096 bytes is
/// never looked at. The word that is to be the name of a file is a part of the line; a line with
/// `file` opens a body whatever follows.
#[derive(Clone, Copy)]
pub enum Request<'a> {
    Blank,
    Long,
    Bad,
    Order(ListOrder),
    File(Option<&'a [u8]>),
    Load(&'a [u8]),
    Withdraw(&'a [u8]),
    Query(Query<'a>),
}

/// The only word of a line.
pub fn only_word(rest: &[u8]) -> Option<&[u8]>
    ensures { option_copied result ≡ only_word (words_of rest.now) }
{
    let (word, rest) = next_word(rest)?;
    if next_word(rest).is_some() {
        return None;
    }
    Some(word)
}

/// The number that is the only word of a line.
pub(crate) fn only_number(rest: &[u8]) -> Option<u32>
    ensures { result ≡ only_number (words_of rest.now) }
{
    let (number, rest) = next_word(rest)?;
    if next_word(rest).is_some() {
        return None;
    }
    number_word(number)
}

fn order_request(number: Option<u32>) -> Request<'static>
    ensures request { request_from result ≡ order_request number }
    ensures within { (most : ℕ) → IsWithin most result }
{
    match number {
        Some(4) => Request::Order(ListOrder::Four),
        Some(5) => Request::Order(ListOrder::Five),
        _ => Request::Bad,
    }
}

fn load_request(word: Option<&[u8]>) -> Request<'_>
    ensures request { request_from result ≡ load_request (option_copied word.entry) }
    ensures within { (most : ℕ) → IsWithin most result }
{
    match word {
        Some(word) => Request::Load(word),
        None => Request::Bad,
    }
}

fn withdraw_request(word: Option<&[u8]>) -> Request<'_>
    ensures request { request_from result ≡ withdraw_request (option_copied word.entry) }
    ensures within { (most : ℕ) → IsWithin most result }
{
    match word {
        Some(word) => Request::Withdraw(word),
        None => Request::Bad,
    }
}

fn query_request(query: Option<Query<'_>>) -> Request<'_>
    ensures request { request_from result ≡ query_request (option_map query_from query.entry) }
    ensures within { (most : ℕ) → IfSome query.entry (λ q. IsQueryWithin most q) → IsWithin most result }
{
    match query {
        Some(query) => Request::Query(query),
        None => Request::Bad,
    }
}

/// Reads what a line asks.
pub fn read_request(line: &[u8]) -> Request<'_>
    ensures request { request_from result ≡ request_of line.now }
    ensures within { IsWithin (length line.now) result }
{
    let Some((word, rest)) = next_word(line) else {
        return Request::Blank;
    };
    if let [b'#', ..] = word {
        return Request::Blank;
    }
    if is(word, "order") {
        return order_request(only_number(rest));
    }
    if is(word, "file") {
        return Request::File(only_word(rest));
    }
    if is(word, "load") {
        return load_request(only_word(rest));
    }
    if is(word, "withdraw") {
        return withdraw_request(only_word(rest));
    }
    query_request(read_query(word, rest))
}
