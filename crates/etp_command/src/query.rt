// Queries, read by their first word and what follows it.
ghost use Rattle.std.specs.Prelude.{ℕ, ◌≡◌, ◌≤◌, ◌<◌, ◌++◌, ◌∷◌, ◌⊎◌, [], take, drop, length, IfSome, MatchOption, None, Some, not, true};
ghost use Rattle.std.specs.Option.{option_map};
ghost use Rattle.etp_words.specs.Words.{skip_blanks, words_of, is_word};
ghost use Rattle.etp_command.specs.Requests.{only_pair, number_query, lone_query, report_query, query_of};
ghost use Rattle.etp_command.specs.Values.{query_from, IsQueryWithin};

use crate::request::{only_number, only_word};
use etp_words::{is, next_word, number_word, skip_blanks};

/// What is asked of the laws, of the files that stand and of the answers; it changes none of them.
/// The text of `number` and the word of `profile`, which is to be the name of a table, are parts of
/// the line.
#[derive(Clone, Copy)]
pub enum Query<'a> {
    Law(u32),
    Number(&'a [u8]),
    Dual(u32),
    Ask(u32, u32),
    Why(u32, u32),
    Files,
    Counts,
    Row(u32),
    Class(u32),
    Classes,
    Csv(u32, u32),
    Ledger,
    Profile(&'a [u8]),
}

// Two numbers that are the only words.
fn only_pair(rest: &[u8]) -> Option<(u32, u32)>
    ensures { result ≡ only_pair (words_of rest.now) }
{
    let (first, rest) = next_word(rest)?;
    let (second, rest) = next_word(rest)?;
    if next_word(rest).is_some() {
        return None;
    }
    Some((number_word(first)?, number_word(second)?))
}

fn number_query(rest: &[u8]) -> Option<Query<'_>>
    ensures query { option_map query_from result ≡ number_query (skip_blanks rest.now) }
    ensures within { (most : ℕ) → length rest.now ≤ most → IfSome result (λ q. IsQueryWithin most q) }
{
    let text = skip_blanks(rest);
    if text.is_empty() {
        None
    } else {
        Some(Query::Number(text))
    }
}

// A query that is a word alone.
fn lone_query<'a>(query: Query<'a>, rest: &[u8]) -> Option<Query<'a>>
    requires { (most : ℕ) → IsQueryWithin most query }
    ensures query { option_map query_from result ≡ lone_query (query_from query.entry) (words_of rest.now) }
    ensures within { (most : ℕ) → IfSome result (λ q. IsQueryWithin most q) }
{
    if next_word(rest).is_some() {
        None
    } else {
        Some(query)
    }
}

// A query for a report on the answers.
fn report_query<'a>(word: &[u8], rest: &'a [u8]) -> Option<Query<'a>>
    ensures query { option_map query_from result ≡ report_query word.now (words_of rest.now) }
    ensures within { (most : ℕ) → IfSome result (λ q. IsQueryWithin most q) }
{
    if is(word, "row") {
        return Some(Query::Row(only_number(rest)?));
    }
    if is(word, "class") {
        return Some(Query::Class(only_number(rest)?));
    }
    if is(word, "classes") {
        return lone_query(Query::Classes, rest);
    }
    if is(word, "csv") {
        let (first, last) = only_pair(rest)?;
        return Some(Query::Csv(first, last));
    }
    None
}

/// Reads a query by its first word and what follows it.
pub(crate) fn read_query<'a>(word: &[u8], rest: &'a [u8]) -> Option<Query<'a>>
    ensures query { option_map query_from result ≡ query_of word.now (skip_blanks rest.now) (words_of rest.now) }
    ensures within { (most : ℕ) → length rest.now ≤ most → IfSome result (λ q. IsQueryWithin most q) }
{
    if is(word, "law") {
        return Some(Query::Law(only_number(rest)?));
    }
    if is(word, "number") {
        return number_query(rest);
    }
    if is(word, "dual") {
        return Some(Query::Dual(only_number(rest)?));
    }
    if is(word, "ask") {
        let (e, f) = only_pair(rest)?;
        return Some(Query::Ask(e, f));
    }
    if is(word, "why") {
        let (e, f) = only_pair(rest)?;
        return Some(Query::Why(e, f));
    }
    if is(word, "files") {
        return lone_query(Query::Files, rest);
    }
    if is(word, "counts") {
        return lone_query(Query::Counts, rest);
    }
    if is(word, "ledger") {
        return lone_query(Query::Ledger, rest);
    }
    if is(word, "profile") {
        return Some(Query::Profile(only_word(rest)?));
    }
    report_query(word, rest)
}
