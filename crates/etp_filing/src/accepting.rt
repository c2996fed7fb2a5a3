// The reply to a file whose body is over.
ghost use Rattle.std.specs.Prelude.{◌≡◌, ◌≢◌, ◌≤◌, ◌++◌, [], Bool, true, length, IfOk, OnOk, codes, decimal};
ghost use Rattle.etp_items.specs.Bodies.{body_of};
ghost use Rattle.etp_items.specs.Reading.{IsReadBody};
ghost use Rattle.etp_check.specs.Checks.{fact_said, IsListedBody, HasContent};
ghost use Rattle.etp_print.specs.Texts.{reply_text, refused_file};
ghost use Rattle.etp_print.specs.RefusalTexts.{body_refusal, file_refusal};
ghost use Rattle.etp_desk.specs.States.{Filing as FilingOf};
ghost use Rattle.etp_desk.specs.Desks.{opened_of, Agrees, Leaves};
ghost use Rattle.etp_filing.specs.FileReplies.{HasFreeName, vector_size, said_text, accepted_with};
ghost use Rattle.etp_filing.specs.Filings.{words_from, IsReading, IsFiling, GivesFile};

use crate::filing::{Filing, Pending};
use etp_desk::Opened;
use etp_items::{Body, BodyReader, BodyRefusal};
use etp_ledger::{LedgerRefusal, Name};
use etp_print::{body_refusal_text, file_refusal_text, refuse, refuse_file, refuse_name};
use etp_text::Text;
use std::alloc::{AllocError, Global};

/// What a body states: that a law implies another, or how many laws hold and how many fail.
#[derive(Clone, Copy)]
pub(crate) enum Said {
    Implies { hypothesis: u32, goal: u32 },
    Refutes { holds: u32, fails: u32 },
}

fn laws_said(body: &Body) -> Said
    ensures { words_from result ≡ said_text (fact_said (body_of body.now)) }
{
    match body {
        Body::Proof(proof) => Said::Implies {
            hypothesis: proof.hypothesis,
            goal: proof.goal,
        },
        Body::Table(table) => Said::Refutes {
            holds: table.claims.holds.len(),
            fails: table.claims.fails.len(),
        },
        Body::Linear(linear) => Said::Refutes {
            holds: linear.claims.holds.len(),
            fails: linear.claims.fails.len(),
        },
        Body::Matrix(matrix) => Said::Refutes {
            holds: matrix.claims.holds.len(),
            fails: matrix.claims.fails.len(),
        },
        Body::Rules(rules) => Said::Refutes {
            holds: rules.claims.holds.len(),
            fails: rules.claims.fails.len(),
        },
    }
}

// How many numbers a vector of the body has, where it has matrices; else 0.
fn vector_size(body: &Body) -> u8
    requires { HasContent (body_of body.now) }
    ensures size { result ≡ vector_size (body_of body.now) }
    ensures small { result ≤ 4 }
{
    match body {
        Body::Matrix(matrix) => matrix.size,
        Body::Proof(_) | Body::Table(_) | Body::Linear(_) | Body::Rules(_) => 0,
    }
}

// Appends a word and two numbers.
fn append_two(text: &mut Text, word: &[u8], first: u32, second: u32) -> Result<(), AllocError>
    ensures { OnOk result (text.new ≡ text.old
        ++ (word.now ++ codes " " ++ decimal first ++ codes " " ++ decimal second)) }
{
    text.append(word)?;
    text.append(b" ")?;
    text.append_number(u64::from(first))?;
    text.append(b" ")?;
    text.append_number(u64::from(second))
}

fn append_said(text: &mut Text, said: Said) -> Result<(), AllocError>
    ensures { OnOk result (text.new ≡ text.old ++ words_from said) }
{
    match said {
        Said::Implies { hypothesis, goal } => append_two(text, b"implies", hypothesis, goal),
        Said::Refutes { holds, fails } => append_two(text, b"refutes", holds, fails),
    }
}

// What an accepted file says: its name, and what its body states.
fn append_accepted(text: &mut Text, name: &[u8], said: Said) -> Result<(), AllocError>
    ensures { OnOk result (text.new ≡ text.old ++ accepted_with name.now (words_from said)) }
{
    text.append(b"accepted ")?;
    text.append(name)?;
    text.append(b": ")?;
    append_said(text, said)?;
    text.append(b"\n")
}

fn refuse_body(
    alloc: Global,
    text: &mut Text,
    line: u64,
    name: &[u8],
    refusal: BodyRefusal,
) -> Result<bool, AllocError>
    requires { text.old ≡ [] }
    ensures { IfOk result (λ refused. (text.new ≡ reply_text line (refused_file name.now (body_refusal refusal))) × (refused ≡ true)) }
{
    let why = body_refusal_text(alloc, &refusal)?;
    refuse_file(text, line, name, why.as_slice())
}

fn refuse_content(
    alloc: Global,
    text: &mut Text,
    line: u64,
    name: &[u8],
    size: u8,
    refusal: &LedgerRefusal,
) -> Result<bool, AllocError>
    requires empty { text.old ≡ [] }
    requires small { size ≤ 4 }
    ensures reply { IfOk result (λ refused. (text.new
        ≡ reply_text line (refused_file name.now (file_refusal size refusal.now))) × (refused ≡ true)) }
    ensures cause { OnOk result (refusal.now ≢ LedgerRefusal.NoMemory) }
{
    let why = file_refusal_text(alloc, size, refusal)?;
    refuse_file(text, line, name, why.as_slice())
}

/// Writes the reply to a file whose body is over, and answers whether it is a refusal. `closed` says
/// that `end` closed it.
pub fn answer_file(
    alloc: Global,
    text: &mut Text,
    opened: &mut Opened,
    filing: Filing,
    closed: bool,
) -> Result<bool, AllocError>
    requires empty { text.old ≡ [] }
    requires agrees { Agrees opened.old }
    requires stands { (g : FilingOf) × IsFiling opened.old filing g }
    ensures { IfOk result (λ refusal. (g : FilingOf) → IsFiling opened.old filing g → GivesFile (opened_of opened.old) g closed text.new refusal (Leaves opened.old opened.new)) }
{
    let number = filing.number;
    match filing.pending {
        Pending::BadLine => refuse(text, number, b"bad line"),
        Pending::NameTaken(name) => refuse_name(text, number, b"name taken ", name.as_slice()),
        Pending::Reading(name, reader) => {
            answer_body(alloc, text, opened, number, name, reader, closed)
        }
    }
}

// Writes the reply to a file whose lines were read.
fn answer_body(
    alloc: Global,
    text: &mut Text,
    opened: &mut Opened,
    number: u64,
    name: Name,
    reader: BodyReader,
    closed: bool,
) -> Result<bool, AllocError>
    requires empty { text.old ≡ [] }
    requires agrees { Agrees opened.old }
    requires stands { (g : FilingOf) × IsReading opened.old name reader g }
    ensures { IfOk result (λ refusal. (g : FilingOf) → g.number ≡ number → IsReading opened.old name reader g → GivesFile (opened_of opened.old) g closed text.new refusal (Leaves opened.old opened.new)) }
{
    match reader.finish(closed) {
        Ok(body) => accept_file(alloc, text, opened, number, name, body),
        Err(refusal) => refuse_body(alloc, text, number, name.as_slice(), refusal),
    }
}

// Writes the reply to a file whose lines are a body.
fn accept_file(
    alloc: Global,
    text: &mut Text,
    opened: &mut Opened,
    number: u64,
    name: Name,
    body: Body,
) -> Result<bool, AllocError>
    requires empty { text.old ≡ [] }
    requires agrees { Agrees opened.old }
    requires listed { IsListedBody opened.old.laws.equations (body_of body) }
    requires content { HasContent (body_of body) }
    ensures { IfOk result (λ refusal. (closed : Bool) (g : FilingOf) → g.number ≡ number → HasFreeName opened.old.ledger.files g.word name
        → IsReadBody (length opened.old.laws.equations) g.lines closed (body_of body) → GivesFile (opened_of opened.old) g closed text.new refusal (Leaves opened.old opened.new)) }
{
    if opened.ledger.count() == u32::MAX {
        return Err(AllocError);
    }
    let mut label = Text::empty(alloc);
    label.append(name.as_slice())?;
    let said = laws_said(&body);
    let size = vector_size(&body);
    match opened.ledger.accept(&opened.laws, name, body) {
        Ok(()) => {
            append_accepted(text, label.as_slice(), said)?;
            Ok(false)
        }
        Err(refusal) => refuse_content(alloc, text, number, label.as_slice(), size, &refusal),
    }
}
