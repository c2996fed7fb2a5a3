// The reply to `why` and two numbers.
ghost use Rattle.std.specs.Prelude.{◌≡◌, ℕ, List, [], length, IfOk, OnOk};
ghost use Rattle.etp_theory.specs.LawNumbers.{IsLaw};
ghost use Rattle.etp_closure.specs.Tables.{image_of};
ghost use Rattle.etp_chain.specs.Evidence.{IsCover};
ghost use Rattle.etp_ledger.specs.Files.{facts_of};
ghost use Rattle.etp_ledger.specs.Ledgers.{IsOver};
ghost use Rattle.etp_ledger.specs.Evidence.{answer_shown, IsEvidence};
ghost use Rattle.etp_print.specs.Given.{Gives};
ghost use Rattle.etp_evidence.specs.Failing.{Appends};
ghost use Rattle.etp_evidence.specs.WhyReplies.{WhyReply, IsShown, IsCoverText};

use crate::failing::append_failure;
use crate::paths::{append_path, name_at};
use etp_chain::Cover;
use etp_closure::Answer;
use etp_laws::Laws;
use etp_ledger::{Ledger, LedgerRefusal, Why};
use etp_print::{append_cover, refuse_with};
use etp_survey::append_pair;
use etp_text::Text;
use std::alloc::{AllocError, Global};

/// Writes the answer to a pair of laws, and why it is so.
pub fn answer_why(
    alloc: Global,
    text: &mut Text,
    laws: &Laws,
    ledger: &Ledger,
    e: u32,
    f: u32,
    line: u64,
) -> Result<bool, AllocError>
    requires empty { text.old ≡ [] }
    requires over { IsOver laws.now ledger.now }
    ensures { IfOk result (λ refused.
        Gives line text.new refused (WhyReply laws.now ledger.now.files e f)) }
{
    match ledger.why(alloc, e, f) {
        Ok(why) => {
            append_pair(text, e, f, answer(&why))?;
            append_shown(alloc, text, laws, ledger, &why, e, f)?;
            Ok(false)
        }
        Err(LedgerRefusal::UnknownLaw { number }) => {
            refuse_with(text, line, b"unknown law ", number)
        }
        Err(_) => Err(AllocError),
    }
}

/// The answer that this shows.
fn answer(why: &Why) -> Answer
    ensures { result ≡ answer_shown why.now }
{
    match why {
        Why::Implied(_) => Answer::Implied,
        Why::Refuted(_) => Answer::Refuted,
        Why::Unsettled => Answer::Unsettled,
    }
}

/// Appends what shows the answer to the pair of laws `e` and `f`.
fn append_shown(
    alloc: Global,
    text: &mut Text,
    laws: &Laws,
    ledger: &Ledger,
    why: &Why,
    e: u32,
    f: u32,
) -> Result<(), AllocError>
    requires over { IsOver laws.now ledger.now }
    requires shows { IsEvidence laws.now.duals (facts_of ledger.now.files) e f why.now }
    ensures { OnOk result (Appends text.old text.new
        (IsShown laws.now ledger.now.files e f (answer_shown why.now))) }
{
    match why {
        Why::Implied(path) => append_path(text, ledger, path),
        Why::Refuted(cover) => append_refuting(alloc, text, laws, ledger, cover, e, f),
        Why::Unsettled => Ok(()),
    }
}

/// Appends the refuting pair of a pair of laws, where its law that fails does so, and its two paths.
fn append_refuting(
    alloc: Global,
    text: &mut Text,
    laws: &Laws,
    ledger: &Ledger,
    cover: &Cover,
    e: u32,
    f: u32,
) -> Result<(), AllocError>
    requires over { IsOver laws.now ledger.now }
    requires covers { IsCover laws.now.duals (facts_of ledger.now.files) e f cover.now }
    ensures { OnOk result (Appends text.old text.new
        (IsCoverText laws.now ledger.now.files cover.now)) }
{
    let Some((name, body, _)) = ledger.file(cover.file) else {
        unreachable!()
    };
    let duals = laws.duals();
    append_cover(text, cover, name)?;
    text.append(b"\n")?;
    append_failure(alloc, text, laws, body, number_said(duals, cover))?;
    text.append(b"\n")?;
    append_path(text, ledger, &cover.before)?;
    append_path(text, ledger, &cover.after)
}

/// The number of the law that fails as the file has it.
fn number_said(duals: &[u32], cover: &Cover) -> u32
    requires { IsLaw (length duals.now) cover.now.fails }
    ensures { result ≡ image_of duals.now cover.now.dual cover.now.fails }
{
    if cover.dual {
        duals[cover.fails as usize - 1]
    } else {
        cover.fails
    }
}
