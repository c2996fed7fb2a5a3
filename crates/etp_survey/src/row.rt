// Replies about all pairs with a law as their first.
ghost use Rattle.std.specs.Prelude.{◌≡◌, ◌≤◌, ◌+◌, ◌++◌, ◌↔◌, [], IfOk, OnOk, IsTrue, length};
ghost use Rattle.etp_theory.specs.LawNumbers.{IsLaw};
ghost use Rattle.etp_laws.specs.LawLists.{LawList};
ghost use Rattle.etp_ledger.specs.Ledgers.{IsOver};
ghost use Rattle.etp_print.specs.Given.{Gives};
ghost use Rattle.etp_survey.specs.PairReplies.{RowReply, list_line, row_text};

use crate::pair::append_counts;
use etp_bits::Numbers;
use etp_items::append_spaced;
use etp_ledger::Ledger;
use etp_print::refuse_with;
use etp_report::{Counts, Row, row_of};
use etp_text::Text;
use std::alloc::{AllocError, Global};

// Whether this is one of so many laws.
pub(crate) fn is_law(count: u32, n: u32) -> bool
    ensures { IsTrue result ↔ IsLaw count n }
{
    1 <= n && n <= count
}

// How many laws have neither of the two answers.
fn count_unsettled(size: u32, row: &Row) -> u32
    requires { length row.now.implied + length row.now.refuted ≤ size }
    ensures { length row.now.implied + length row.now.refuted + result ≡ size }
{
    size - row.implied.len() - row.refuted.len()
}

fn append_list(text: &mut Text, word: &[u8], numbers: &Numbers) -> Result<(), AllocError>
    ensures { OnOk result (text.new ≡ text.old ++ list_line word.now numbers.now) }
{
    text.append(word)?;
    append_spaced(text, numbers.as_slice())?;
    text.append(b"\n")
}

fn append_row(text: &mut Text, e: u32, row: &Row, unsettled: u32) -> Result<(), AllocError>
    ensures { OnOk result (text.new ≡ text.old
        ++ row_text e row.now.implied row.now.refuted unsettled) }
{
    let counts = Counts {
        implied: u64::from(row.implied.len()),
        refuted: u64::from(row.refuted.len()),
        unsettled: u64::from(unsettled),
    };
    text.append_number(u64::from(e))?;
    text.append(b" ")?;
    append_counts(text, counts)?;
    append_list(text, b"implied", &row.implied)?;
    append_list(text, b"refuted", &row.refuted)
}

/// Writes how many laws have each answer as the second of a pair with a law, and which are implied
/// and which refuted.
pub fn answer_row(
    alloc: Global,
    text: &mut Text,
    ledger: &Ledger,
    e: u32,
    line: u64,
) -> Result<bool, AllocError>
    requires { text.old ≡ [] }
    ensures { IfOk result (λ refused. (laws : LawList) → IsOver laws ledger.now
        → Gives line text.new refused (RowReply laws ledger.now.files e)) }
{
    let closure = ledger.closure();
    let size = closure.size();
    if !is_law(size, e) {
        return refuse_with(text, line, b"unknown law ", e);
    }
    let row = row_of(alloc, closure, e)?;
    let unsettled = count_unsettled(size, &row);
    append_row(text, e, &row, unsettled)?;
    Ok(false)
}
