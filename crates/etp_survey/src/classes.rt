// Replies about the classes of equivalent laws.
ghost use Rattle.std.specs.Prelude.{◌≡◌, ◌++◌, [], IfOk, OnOk, flat_map};
ghost use Rattle.etp_laws.specs.LawLists.{LawList};
ghost use Rattle.etp_ledger.specs.Ledgers.{IsOver};
ghost use Rattle.etp_print.specs.Given.{Gives};
ghost use Rattle.etp_survey.specs.PairReplies.{ClassReply, ClassesReply, class_text, class_line, classes_text};

use crate::row::is_law;
use etp_bits::Numbers;
use etp_items::append_spaced;
use etp_ledger::Ledger;
use etp_print::refuse_with;
use etp_report::{Classes, class_of, classes_of};
use etp_text::Text;
use std::alloc::{AllocError, Global};

fn append_class(text: &mut Text, e: u32, class: &Numbers) -> Result<(), AllocError>
    ensures { OnOk result (text.new ≡ text.old ++ class_text e class.now) }
{
    text.append(b"class ")?;
    text.append_number(u64::from(e))?;
    text.append(b" ")?;
    text.append_number(u64::from(class.len()))?;
    text.append(b":")?;
    append_spaced(text, class.as_slice())?;
    text.append(b"\n")
}

/// Writes the laws that imply a law and are implied by it.
pub fn answer_class(
    alloc: Global,
    text: &mut Text,
    ledger: &Ledger,
    e: u32,
    line: u64,
) -> Result<bool, AllocError>
    requires { text.old ≡ [] }
    ensures { IfOk result (λ refused. (laws : LawList) → IsOver laws ledger.now
        → Gives line text.new refused (ClassReply laws ledger.now.files e)) }
{
    let closure = ledger.closure();
    if !is_law(closure.size(), e) {
        return refuse_with(text, line, b"unknown law ", e);
    }
    let class = class_of(alloc, closure, e)?;
    append_class(text, e, &class)?;
    Ok(false)
}

// Appends the line of a class, where it has more than one law.
fn append_class_line(text: &mut Text, class: &Numbers) -> Result<(), AllocError>
    ensures { OnOk result (text.new ≡ text.old ++ class_line class.now) }
{
    let laws = class.as_slice();
    if laws.len() < 2 {
        return Ok(());
    }
    text.append_number(u64::from(laws[0]))?;
    append_spaced(text, &laws[1..])?;
    text.append(b"\n")?;
    Ok(())
}

fn append_class_lines(text: &mut Text, classes: &[Numbers]) -> Result<(), AllocError>
    ensures { OnOk result (text.new ≡ text.old ++ flat_map class_line classes.now) }
{
    for class in classes {
        append_class_line(text, class)?;
    }
    Ok(())
}

fn append_classes(text: &mut Text, classes: &Classes) -> Result<(), AllocError>
    ensures { OnOk result (text.new ≡ text.old ++ classes_text classes.now) }
{
    append_class_lines(text, classes.as_slice())?;
    text.append(b"classes ")?;
    text.append_number(u64::from(classes.len()))?;
    text.append(b"\n")
}

/// Writes the classes of more than one law, and how many classes there are.
pub fn answer_classes(
    alloc: Global,
    text: &mut Text,
    ledger: &Ledger,
    line: u64,
) -> Result<bool, AllocError>
    requires { text.old ≡ [] }
    ensures { IfOk result (λ refused. (laws : LawList) → IsOver laws ledger.now
        → Gives line text.new refused (ClassesReply laws ledger.now.files)) }
{
    let classes = classes_of(alloc, ledger.closure())?;
    append_classes(text, &classes)?;
    Ok(false)
}
