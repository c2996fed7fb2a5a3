// What a line comes to: which part of the desk obeys it.
ghost use Rattle.std.specs.Prelude.{◌≡◌, ◌≤◌, ◌||◌, [], Some, IfOk, IfSome, OnOk, Bool, length, None, List, ℕ};
ghost use Rattle.etp_io.specs.Texts.{LineText};
ghost use Rattle.etp_reading.specs.Reading.{given_text};
ghost use Rattle.etp_command.specs.Requests.{asked, load};
ghost use Rattle.etp_command.specs.Values.{request_from, IsWithin};
ghost use Rattle.etp_desk.specs.States.{State};
ghost use Rattle.etp_desk.specs.Desks.{opened_of, Agrees};
ghost use Rattle.etp_reply.specs.Shelves.{KnownShelf, IsLoaded};
ghost use Rattle.etp_reply.specs.Replies.{LoadsName, LoadReply, OpenReply, OpenedReply, FirstReply};
ghost use Rattle.etp_reply.specs.Given.{GivesState, GivesReply, GivesClose};
ghost use Rattle.etp_reply.specs.Desks.{IsStage, IsDesk, IsSound, HasRightLaws, IsLoading};
ghost use Rattle.etp_reply.specs.Outcomes.{IsOutcome, LineOutcome};

use crate::desk::Desk;
use crate::query::answer_query;
use etp_command::{ListOrder, Request, read_request};
use etp_desk::Opened;
use etp_filing::{
    Filing, answer_file, answer_withdrawal, closes_body, has_free_name, open_file, take_line,
};
use etp_print::refuse;
use etp_text::Text;
use std::alloc::{AllocError, Global};

/// What a line comes to.
#[derive(Drop)]
pub enum Outcome<'a> {
    /// Its reply, which may be nothing, was written; whether that is a refusal.
    Replied(bool),
    /// A file is to be read from the shelf, under this name.
    Loads(&'a [u8], Filing),
}

// Obeys a request once the laws stand.
fn obey<'a>(
    alloc: Global,
    text: &mut Text,
    opened: &mut Opened,
    filing: &mut Option<Filing>,
    request: Request<'a>,
    line: u64,
) -> Result<Outcome<'a>, AllocError>
    requires empty { text.old ≡ [] }
    requires agrees { Agrees opened.old }
    requires no_body { filing.old ≡ None }
    requires short { IsWithin 4096 request }
    ensures gives { IfOk result (λ outcome. (s : KnownShelf)
        → IsOutcome s line text.new (record { opened = Some opened.new; filing = filing.new })
        (OpenReply s (opened_of opened.old) line (request_from request.entry))
        (LoadsName opened.old.ledger.files (request_from request.entry)) outcome) }
    ensures agrees { OnOk result (Agrees opened.new) }
{
    match request {
        Request::Blank => Ok(Outcome::Replied(false)),
        Request::Long => {
            let refused = refuse(text, line, b"long line")?;
            Ok(Outcome::Replied(refused))
        }
        Request::Bad => {
            let refused = refuse(text, line, b"bad line")?;
            Ok(Outcome::Replied(refused))
        }
        Request::Order(_) => {
            let refused = refuse(text, line, b"bad line")?;
            Ok(Outcome::Replied(refused))
        }
        Request::File(word) => {
            *filing = Some(open_file(alloc, opened, word, line)?);
            Ok(Outcome::Replied(false))
        }
        Request::Load(word) => open_load(alloc, text, opened, word, line),
        Request::Withdraw(word) => {
            let refused = answer_withdrawal(alloc, text, opened, word, line)?;
            Ok(Outcome::Replied(refused))
        }
        Request::Query(query) => {
            let refused = answer_query(alloc, text, opened, query, line)?;
            Ok(Outcome::Replied(refused))
        }
    }
}

// Opens a file that is to be read from the shelf, or refuses it for its name.
fn open_load<'a>(
    alloc: Global,
    text: &mut Text,
    opened: &mut Opened,
    word: &'a [u8],
    line: u64,
) -> Result<Outcome<'a>, AllocError>
    requires empty { text.old ≡ [] }
    requires agrees { Agrees opened.old }
    ensures gives { IfOk result (λ outcome. (s : KnownShelf)
        → IsOutcome s line text.new (record { opened = Some opened.new; filing = None })
        (LoadReply s (opened_of opened.old) line word.now)
        (LoadsName opened.old.ledger.files (load word.now)) outcome) }
    ensures agrees { OnOk result (Agrees opened.new) }
{
    let filing = open_file(alloc, opened, Some(word), line)?;
    if has_free_name(&filing) {
        return Ok(Outcome::Loads(word, filing));
    }
    let refused = answer_file(alloc, text, opened, filing, true)?;
    Ok(Outcome::Replied(refused))
}

// Obeys a request where nothing stands yet. The first that isn't blank opens the list of laws.
fn obey_first<'a>(
    alloc: Global,
    text: &mut Text,
    desk: &mut Desk,
    request: Request<'a>,
    line: u64,
) -> Result<Outcome<'a>, AllocError>
    requires empty { text.old ≡ [] }
    requires unopened { desk.old.opened ≡ None }
    requires no_body { desk.old.filing ≡ None }
    requires short { IsWithin 4096 request }
    ensures gives { IfOk result (λ outcome. (s : KnownShelf)
        → IsOutcome s line text.new desk.new (FirstReply s line (request_from request.entry))
        (LoadsName [] (request_from request.entry)) outcome) }
    ensures laws { OnOk result (HasRightLaws desk.new) }
{
    match request {
        Request::Blank => Ok(Outcome::Replied(false)),
        Request::Order(order) => {
            desk.opened = Some(Opened::start(alloc, order)?);
            Ok(Outcome::Replied(false))
        }
        _ => open_and_obey(alloc, text, desk, request, line),
    }
}

// Opens the list of order 4 and obeys a request.
fn open_and_obey<'a>(
    alloc: Global,
    text: &mut Text,
    desk: &mut Desk,
    request: Request<'a>,
    line: u64,
) -> Result<Outcome<'a>, AllocError>
    requires empty { text.old ≡ [] }
    requires no_body { desk.old.filing ≡ None }
    requires short { IsWithin 4096 request }
    ensures gives { IfOk result (λ outcome. (s : KnownShelf)
        → IsOutcome s line text.new desk.new (OpenedReply s line (request_from request.entry))
        (LoadsName [] (request_from request.entry)) outcome) }
    ensures laws { OnOk result (HasRightLaws desk.new) }
{
    let mut opened = Opened::start(alloc, ListOrder::Four)?;
    let outcome = obey(alloc, text, &mut opened, &mut desk.filing, request, line)?;
    desk.opened = Some(opened);
    Ok(outcome)
}

// What the line asks; a line that is too long is never looked at.
fn request_in(line: Option<&[u8]>) -> Request<'_>
    requires { IfSome line (λ line. length line.now ≤ 4096) }
    ensures request { request_from result ≡ asked (given_text line.entry) }
    ensures short { IsWithin 4096 result }
{
    match line {
        Some(line) => read_request(line),
        None => Request::Long,
    }
}

// Obeys a line where no body is read.
fn respond_to_request<'a>(
    alloc: Global,
    text: &mut Text,
    desk: &mut Desk,
    line: Option<&'a [u8]>,
    number: u64,
) -> Result<Outcome<'a>, AllocError>
    requires empty { text.old ≡ [] }
    requires laws { HasRightLaws desk.old }
    requires no_body { desk.old.filing ≡ None }
    requires short { IfSome line (λ line. length line.now ≤ 4096) }
    ensures gives { IfOk result (λ outcome. (s : KnownShelf) (state : State) → IsDesk desk.old state
        → LineOutcome s state number (given_text line.entry) text.new desk.new outcome) }
    ensures laws { OnOk result (HasRightLaws desk.new) }
{
    let request = request_in(line);
    match &mut desk.opened {
        Some(opened) => obey(alloc, text, opened, &mut desk.filing, request, number),
        None => obey_first(alloc, text, desk, request, number),
    }
}

// Takes a line of a file's body, or writes the reply to the file that it closes.
fn respond_in_body(
    alloc: Global,
    text: &mut Text,
    desk: &mut Desk,
    filing: Filing,
    line: Option<&[u8]>,
) -> Result<bool, AllocError>
    requires empty { text.old ≡ [] }
    requires laws { HasRightLaws desk.old }
    requires no_body { desk.old.filing ≡ None }
    requires stands { (state : State) × IsStage desk.old.opened (Some filing) state }
    requires short { IfSome line (λ line. length line.now ≤ 4096) }
    ensures gives { IfOk result (λ refused. (s : KnownShelf) (state : State) (number : ℕ)
        → IsStage desk.old.opened (Some filing) state
        → GivesReply s state number (given_text line.entry) text.new refused (IsDesk desk.new)) }
    ensures laws { OnOk result (HasRightLaws desk.new) }
{
    let Some(opened) = &mut desk.opened else {
        return Ok(false);
    };
    if closes_body(line) {
        return answer_file(alloc, text, opened, filing, true);
    }
    desk.filing = Some(take_line(filing, line)?);
    Ok(false)
}

/// Obeys a line, which is None where it is too long.
pub fn respond<'a>(
    alloc: Global,
    text: &mut Text,
    desk: &mut Desk,
    line: Option<&'a [u8]>,
    number: u64,
) -> Result<Outcome<'a>, AllocError>
    requires empty { text.old ≡ [] }
    requires sound { IsSound desk.old }
    requires short { IfSome line (λ line. length line.now ≤ 4096) }
    ensures gives { IfOk result (λ outcome. (s : KnownShelf) (state : State) → IsDesk desk.old state
        → LineOutcome s state number (given_text line.entry) text.new desk.new outcome) }
    ensures laws { OnOk result (HasRightLaws desk.new) }
{
    match desk.filing.take() {
        Some(filing) => {
            let refused = respond_in_body(alloc, text, desk, filing, line)?;
            Ok(Outcome::Replied(refused))
        }
        None => respond_to_request(alloc, text, desk, line, number),
    }
}

/// Writes the reply to a file whose body lines were taken from the shelf, and answers whether it is
/// a refusal.
pub fn respond_loaded(
    alloc: Global,
    text: &mut Text,
    desk: &mut Desk,
    filing: Filing,
) -> Result<bool, AllocError>
    requires empty { text.old ≡ [] }
    requires laws { HasRightLaws desk.old }
    requires loads { (n : ℕ) × (name : List ℕ) × (lines : List LineText)
        × IsLoading desk.old n name lines filing }
    ensures gives { IfOk result (λ refused. (s : KnownShelf) (n : ℕ) (name : List ℕ)
        (lines : List LineText) (load : IsLoading desk.old n name lines filing)
        → IsLoaded s name lines
        → GivesState n text.new refused (LoadReply s (opened_of load.opened) n name)
        (IsDesk desk.new)) }
    ensures laws { OnOk result (HasRightLaws desk.new) }
{
    match &mut desk.opened {
        Some(opened) => answer_file(alloc, text, opened, filing, true),
        None => Ok(false),
    }
}

/// Writes the reply to a file whose body isn't closed where the source ends, and answers whether
/// that is a refusal.
pub fn respond_at_end(alloc: Global, text: &mut Text, desk: &mut Desk) -> Result<bool, AllocError>
    requires empty { text.old ≡ [] }
    requires sound { IsSound desk.old }
    ensures { IfOk result (λ refused. (state : State) → IsDesk desk.old state
        → (bad : Bool) → GivesClose state bad text.new (bad || refused)) }
{
    let Some(filing) = desk.filing.take() else {
        return Ok(false);
    };
    match &mut desk.opened {
        Some(opened) => answer_file(alloc, text, opened, filing, false),
        None => Ok(false),
    }
}
