// The lines of a file's body.
ghost use Rattle.std.specs.Prelude.{◌≡◌, ◌≤◌, [], ℕ, List, Some, length, IfOk, IfSome, MatchBool};
ghost use Rattle.std.specs.Option.{option_copied};
ghost use Rattle.etp_reading.specs.Reading.{given_text};
ghost use Rattle.etp_desk.specs.States.{Filing as FilingOf};
ghost use Rattle.etp_desk.specs.Desks.{Agrees};
ghost use Rattle.etp_filing.specs.FileReplies.{closes_body, HasFreeName};
ghost use Rattle.etp_filing.specs.Filings.{with_line, loading, IsPending, IsFiling};

use etp_command::only_word;
use etp_desk::Opened;
use etp_items::BodyReader;
use etp_ledger::Name;
use etp_words::is;
use std::alloc::{AllocError, Global};

// What becomes of a file whose body is being read: it is refused, whatever its lines say, or read.
#[derive(Drop)]
pub(crate) enum Pending {
    // Its line has no name.
    BadLine,
    // Its name stands.
    NameTaken(Name),
    // Its name is free, and its lines are read.
    Reading(Name, BodyReader),
}

/// A file whose body is being read, under the number of its line.
#[derive(Drop)]
pub struct Filing {
    pub(crate) number: u64,
    pub(crate) pending: Pending,
}

/// Whether the line closes a body.
pub fn closes_body(line: Option<&[u8]>) -> bool
    ensures { result ≡ closes_body (given_text line.entry) }
{
    let Some(line) = line else {
        return false;
    };
    match only_word(line) {
        None => false,
        Some(word) => is(word, "end"),
    }
}

/// Opens the body of a file, whose name is to be the word.
pub fn open_file(
    alloc: Global,
    opened: &Opened,
    word: Option<&[u8]>,
    number: u64,
) -> Result<Filing, AllocError>
    requires { Agrees opened.now }
    ensures { IfOk result (λ filing. IsFiling opened.now filing (record { number = number; word = option_copied word.entry; lines = [] })) }
{
    let pending = pend(alloc, opened, word)?;
    Ok(Filing { number, pending })
}

fn pend(alloc: Global, opened: &Opened, word: Option<&[u8]>) -> Result<Pending, AllocError>
    requires { Agrees opened.now }
    ensures { IfOk result (λ pending. (number : ℕ) → IsPending opened.now pending (record { number = number; word = option_copied word.entry; lines = [] })) }
{
    let Some(word) = word else {
        return Ok(Pending::BadLine);
    };
    let Some(name) = Name::of(alloc, word)? else {
        return Ok(Pending::BadLine);
    };
    if opened.ledger.place(name.as_slice()).is_some() {
        return Ok(Pending::NameTaken(name));
    }
    let reader = BodyReader::start(alloc, opened.laws.count())?;
    Ok(Pending::Reading(name, reader))
}

/// Whether the name of a file that was opened just now is a name and free, so that its body is read.
pub fn has_free_name(filing: &Filing) -> bool
    ensures { (o : Opened) (n : ℕ) (word : List ℕ) → IsFiling o filing.now (loading n word [])
        → MatchBool result (HasFreeName o.ledger.files (Some word) word) (HasFreeName o.ledger.files (Some word) word → ⊥) }
{
    match filing.pending {
        Pending::BadLine | Pending::NameTaken(_) => false,
        Pending::Reading(_, _) => true,
    }
}

/// The file with one body line more.
pub fn take_line(filing: Filing, line: Option<&[u8]>) -> Result<Filing, AllocError>
    requires { IfSome line (λ bytes. length bytes.now ≤ 4096) }
    ensures { IfOk result (λ next. (o : Opened) (g : FilingOf) → IsFiling o filing g → IsFiling o next (with_line g (given_text line.entry))) }
{
    let Filing { number, pending } = filing;
    let pending = with_line(pending, line)?;
    Ok(Filing { number, pending })
}

// What becomes of a file with one body line more.
fn with_line(pending: Pending, line: Option<&[u8]>) -> Result<Pending, AllocError>
    requires { IfSome line (λ bytes. length bytes.now ≤ 4096) }
    ensures { IfOk result (λ next. (o : Opened) (g : FilingOf) → IsPending o pending g → IsPending o next (with_line g (given_text line.entry))) }
{
    match pending {
        Pending::BadLine => Ok(Pending::BadLine),
        Pending::NameTaken(name) => Ok(Pending::NameTaken(name)),
        Pending::Reading(name, mut reader) => {
            reader.push(line)?;
            Ok(Pending::Reading(name, reader))
        }
    }
}
