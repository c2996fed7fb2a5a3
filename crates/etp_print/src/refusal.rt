// The texts of refusals.
ghost use Rattle.std.specs.Prelude.{◌≡◌, ◌≢◌, ◌≤◌, ◌++◌, IfOk, OnOk, codes, decimal};
ghost use Rattle.etp_print.specs.RefusalTexts.{body_refusal, found_text, step_place, replay_refusal, check_refusal, file_refusal};

use crate::linear::append_linear_refusal;
use crate::matrix::append_matrix_refusal;
use crate::rules::{append_forms, append_pairs_refusal, append_rules_refusal, append_with_term};
use crate::table::append_table_refusal;
use etp_check::CheckRefusal;
use etp_laws::Numbered;
use etp_ledger::LedgerRefusal;
use etp_reading::BodyRefusal;
use etp_replay::ReplayRefusal;
use etp_text::Text;
use std::alloc::{AllocError, Global};

// Appends words and a number.
pub(crate) fn append_with(text: &mut Text, words: &[u8], n: u32) -> Result<(), AllocError>
    ensures { OnOk result (text.new ≡ text.old ++ (words.now ++ decimal n)) }
{
    text.append(words)?;
    text.append_number(u64::from(n))
}

// Appends why the lines of a body are refused.
fn append_body_refusal(text: &mut Text, refusal: BodyRefusal) -> Result<(), AllocError>
    ensures { OnOk result (text.new ≡ text.old ++ body_refusal refusal) }
{
    match refusal {
        BodyRefusal::BadLine { line } => append_with(text, b"bad line ", line),
        BodyRefusal::TooManyLines { .. } => text.append(b"too many lines"),
        BodyRefusal::Unfinished { line } => append_with(text, b"unfinished at ", line),
        BodyRefusal::UnknownLaw { line, number } => {
            append_with(text, b"unknown law ", number)?;
            append_with(text, b" in line ", line)
        }
    }
}

// Appends that another law than the goal was found.
fn append_found(text: &mut Text, found: Numbered) -> Result<(), AllocError>
    ensures { OnOk result (text.new ≡ text.old
        ++ (codes "goal differs found " ++ found_text found)) }
{
    match found {
        Numbered::Is(n) => append_with(text, b"goal differs found ", n),
        Numbered::Trivial => text.append(b"goal differs found trivial"),
        Numbered::TooManyOps(operations) => {
            append_with(text, b"goal differs found operations ", operations)
        }
    }
}

// Appends words and the place of a step.
fn append_at(text: &mut Text, words: &[u8], lemma: u32, step: u32) -> Result<(), AllocError>
    ensures { OnOk result (text.new ≡ text.old ++ (words.now ++ step_place lemma step)) }
{
    text.append(words)?;
    append_with(text, b" lemma ", lemma)?;
    append_with(text, b" step ", step)
}

// Appends why a proof is refused.
fn append_replay_refusal(text: &mut Text, refusal: &ReplayRefusal) -> Result<(), AllocError>
    ensures { OnOk result (text.new ≡ text.old ++ replay_refusal refusal.now) }
{
    match refusal {
        ReplayRefusal::Reference { lemma, step, line } => {
            append_at(text, b"reference", *lemma, *step)?;
            append_with(text, b" line ", *line)
        }
        ReplayRefusal::NoPlace { lemma, step } => append_at(text, b"no place", *lemma, *step),
        ReplayRefusal::OutsideChanged { lemma, step } => {
            append_at(text, b"outside changed", *lemma, *step)
        }
        ReplayRefusal::NoMatch { lemma, step } => append_at(text, b"no match", *lemma, *step),
        ReplayRefusal::GoalDiffers { found } => append_found(text, *found),
        ReplayRefusal::Citation { lemma, step, cite } => {
            append_at(text, b"citation", *lemma, *step)?;
            append_with(text, b" cite ", *cite)
        }
        ReplayRefusal::NoMemory => Ok(()),
    }
}

// Appends why a body isn't valid.
fn append_check_refusal(
    alloc: Global,
    text: &mut Text,
    size: u8,
    refusal: &CheckRefusal,
) -> Result<(), AllocError>
    requires { size ≤ 4 }
    ensures { OnOk result (text.new ≡ text.old ++ check_refusal size refusal.now) }
{
    match refusal {
        CheckRefusal::Replay(refusal) => append_replay_refusal(text, refusal),
        CheckRefusal::Table(refusal) => append_table_refusal(text, refusal),
        CheckRefusal::Linear(refusal) => append_linear_refusal(text, refusal),
        CheckRefusal::Matrix(refusal) => append_matrix_refusal(text, size, refusal),
        CheckRefusal::Rules(refusal) => append_rules_refusal(text, refusal),
        CheckRefusal::Pairs(refusal) => append_pairs_refusal(alloc, text, refusal),
        CheckRefusal::HoldsFails {
            law,
            left_form,
            right_form,
        } => {
            append_with(text, b"holds fails law ", *law)?;
            append_forms(text, left_form, right_form)
        }
        CheckRefusal::FailsHolds { law, form } => {
            append_with(text, b"fails holds law ", *law)?;
            append_with_term(text, b": ", form)
        }
        CheckRefusal::TermLimit { law } => append_with(text, b"term limit law ", *law),
        CheckRefusal::StepLimit { law } => append_with(text, b"step limit law ", *law),
        CheckRefusal::NoMemory => Ok(()),
    }
}

// Appends why the ledger refuses a file.
fn append_file_refusal(
    alloc: Global,
    text: &mut Text,
    size: u8,
    refusal: &LedgerRefusal,
) -> Result<(), AllocError>
    requires { size ≤ 4 }
    ensures text { OnOk result (text.new ≡ text.old ++ file_refusal size refusal.now) }
    ensures cause { OnOk result (refusal.now ≢ LedgerRefusal.NoMemory) }
{
    match refusal {
        LedgerRefusal::Check(refusal) => append_check_refusal(alloc, text, size, refusal),
        LedgerRefusal::CiteMissing { cite } => append_with(text, b"cite missing ", *cite),
        LedgerRefusal::CiteOther { cite } => append_with(text, b"cite other ", *cite),
        LedgerRefusal::NoMemory => Err(AllocError),
        _ => Ok(()),
    }
}

/// Why the lines of a body are refused.
pub fn body_refusal_text(alloc: Global, refusal: &BodyRefusal) -> Result<Text, AllocError>
    ensures { IfOk result (λ text. text ≡ body_refusal refusal.now) }
{
    let mut text = Text::empty(alloc);
    append_body_refusal(&mut text, *refusal)?;
    Ok(text)
}

/// Why a proof is refused.
pub fn replay_text(alloc: Global, refusal: &ReplayRefusal) -> Result<Text, AllocError>
    ensures { IfOk result (λ text. text ≡ replay_refusal refusal.now) }
{
    let mut text = Text::empty(alloc);
    append_replay_refusal(&mut text, refusal)?;
    Ok(text)
}

/// Why the ledger refuses a file whose vectors have `size` numbers, where it has matrices; want of
/// memory is passed on.
pub fn file_refusal_text(
    alloc: Global,
    size: u8,
    refusal: &LedgerRefusal,
) -> Result<Text, AllocError>
    requires { size ≤ 4 }
    ensures text { IfOk result (λ text. text ≡ file_refusal size refusal.now) }
    ensures cause { OnOk result (refusal.now ≢ LedgerRefusal.NoMemory) }
{
    let mut text = Text::empty(alloc);
    append_file_refusal(alloc, &mut text, size, refusal)?;
    Ok(text)
}
