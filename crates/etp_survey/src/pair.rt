// Replies about pairs of laws.
ghost use Rattle.std.specs.Prelude.{◌≡◌, ◌++◌, ◌∷◌, [], IfOk, OnOk, length};
ghost use Rattle.etp_laws.specs.LawLists.{LawList};
ghost use Rattle.etp_ledger.specs.Ledgers.{IsOver};
ghost use Rattle.etp_report.specs.Blocks.{answer_text};
ghost use Rattle.etp_print.specs.Given.{Gives};
ghost use Rattle.etp_survey.specs.PairReplies.{AskReply, CountsReply, pair_line, counts_line};

use etp_closure::Answer;
use etp_ledger::{Ledger, LedgerRefusal};
use etp_print::refuse_with;
use etp_report::{Counts, answer_word, count_answers};
use etp_text::Text;
use std::alloc::AllocError;

/// Appends the line of a pair of laws and its answer.
pub fn append_pair(text: &mut Text, e: u32, f: u32, answer: Answer) -> Result<(), AllocError>
    ensures { OnOk result (text.new ≡ text.old ++ pair_line e f (answer_text answer)) }
{
    text.append_number(u64::from(e))?;
    text.append(b" ")?;
    text.append_number(u64::from(f))?;
    text.append(b" ")?;
    text.append(answer_word(answer).as_bytes())?;
    text.append(b"\n")
}

/// Writes the answer to a pair of laws.
pub fn answer_pair(
    text: &mut Text,
    ledger: &Ledger,
    e: u32,
    f: u32,
    line: u64,
) -> Result<bool, AllocError>
    requires { text.old ≡ [] }
    ensures { IfOk result (λ refused. (laws : LawList) → IsOver laws ledger.now
        → Gives line text.new refused (AskReply laws ledger.now.files e f)) }
{
    match ledger.ask(e, f) {
        Ok(answer) => {
            append_pair(text, e, f, answer)?;
            Ok(false)
        }
        Err(LedgerRefusal::UnknownLaw { number }) => {
            refuse_with(text, line, b"unknown law ", number)
        }
        Err(_) => Err(AllocError),
    }
}

pub(crate) fn append_counts(text: &mut Text, counts: Counts) -> Result<(), AllocError>
    ensures { OnOk result (text.new ≡ text.old
        ++ counts_line counts.implied counts.refuted counts.unsettled) }
{
    text.append(b"implied ")?;
    text.append_number(counts.implied)?;
    text.append(b" refuted ")?;
    text.append_number(counts.refuted)?;
    text.append(b" open ")?;
    text.append_number(counts.unsettled)?;
    text.append(b"\n")
}

/// Writes how many pairs have each answer.
pub fn answer_counts(text: &mut Text, ledger: &Ledger, line: u64) -> Result<bool, AllocError>
    requires { text.old ≡ [] }
    ensures { IfOk result (λ refused. (laws : LawList) → IsOver laws ledger.now
        → Gives line text.new refused (CountsReply laws ledger.now.files)) }
{
    let counts = count_answers(ledger.closure());
    append_counts(text, counts)?;
    Ok(false)
}
