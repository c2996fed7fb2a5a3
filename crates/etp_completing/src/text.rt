// What a completion comes to, as a text.
ghost use Rattle.std.specs.Prelude.{◌≡◌, ◌++◌, ◌∷◌, [], OnOk};
ghost use Rattle.etp_term.specs.Terms.{tree_of};
ghost use Rattle.etp_completing.specs.CompletionTexts.{origin_text, forms_found, joined_text, weight_text, completed_text};

use etp_complete::{Completed, Origin};
use etp_items::Body;
use etp_print::{append_forms, append_numbered_forms, append_place, append_rules_refusal};
use etp_rules::RulesRefusal;
use etp_show::append_printed;
use etp_term::{NoMemory, Term};
use etp_text::Text;
use std::alloc::Global;

// Appends where a completion stopped.
fn append_origin(text: &mut Text, origin: &Origin) -> Result<(), NoMemory>
    ensures { OnOk result (text.new ≡ text.old ++ origin_text origin.now) }
{
    match origin {
        Origin::Law(law) => {
            text.append(b"law ")?;
            text.append_number(u64::from(*law))
        }
        Origin::Pair {
            outer,
            position,
            inner,
        } => {
            text.append(b"pair ")?;
            append_place(text, *outer, position, *inner)
        }
    }
}

// Appends the two normal forms that were found there: of a law with its own variables.
fn append_forms_found(
    alloc: Global,
    text: &mut Text,
    origin: &Origin,
    left: &Term,
    right: &Term,
) -> Result<(), NoMemory>
    ensures { OnOk result (text.new ≡ text.old
        ++ forms_found origin.now (tree_of left.now) (tree_of right.now)) }
{
    match origin {
        Origin::Law(_) => append_forms(text, left, right),
        Origin::Pair { .. } => append_numbered_forms(alloc, text, left, right),
    }
}

// Appends that the completion stopped, why and where.
fn append_stop(text: &mut Text, why: &[u8], origin: &Origin) -> Result<(), NoMemory>
    ensures { OnOk result (text.new ≡ text.old ++ (why.now ++ (origin_text origin.now ++ 10 ∷ []))) }
{
    text.append(why)?;
    append_origin(text, origin)?;
    text.append(b"\n")
}

// The same with the two normal forms that were found there.
fn append_stop_with_forms(
    alloc: Global,
    text: &mut Text,
    why: &[u8],
    origin: &Origin,
    left: &Term,
    right: &Term,
) -> Result<(), NoMemory>
    ensures { OnOk result (text.new ≡ text.old ++ (why.now ++ (origin_text origin.now
        ++ (forms_found origin.now (tree_of left.now) (tree_of right.now) ++ 10 ∷ [])))) }
{
    text.append(why)?;
    append_origin(text, origin)?;
    append_forms_found(alloc, text, origin, left, right)?;
    text.append(b"\n")
}

// Appends that both sides of the target come to this form.
fn append_joined(text: &mut Text, target: u32, form: &Term) -> Result<(), NoMemory>
    ensures { OnOk result (text.new ≡ text.old ++ joined_text target (tree_of form.now)) }
{
    text.append(b"joined ")?;
    text.append_number(u64::from(target))?;
    text.append(b" ")?;
    text.append_term(form)?;
    text.append(b"\n")
}

// Appends that a weight is out of range.
fn append_weight(text: &mut Text, which: u8) -> Result<(), NoMemory>
    ensures { OnOk result (text.new ≡ text.old ++ weight_text which) }
{
    text.append(b"stopped ")?;
    append_rules_refusal(text, &RulesRefusal::WeightRange { which })?;
    text.append(b"\n")
}

/// Appends what a completion comes to.
pub fn append_completed(
    alloc: Global,
    text: &mut Text,
    target: u32,
    completed: Completed,
) -> Result<(), NoMemory>
    ensures { OnOk result (text.new ≡ text.old ++ completed_text target completed) }
{
    match completed {
        Completed::Done(body) => {
            let body = Body::Rules(body);
            append_printed(alloc, text, b"complete", &body)
        }
        Completed::Joined {
            rules: _rules,
            form,
        } => append_joined(text, target, &form),
        Completed::WeightRange { which } => append_weight(text, which),
        Completed::Unorientable {
            origin,
            left,
            right,
        } => append_stop_with_forms(
            alloc,
            text,
            b"stopped unorientable ",
            &origin,
            &left,
            &right,
        ),
        Completed::SideTooLarge {
            origin,
            left,
            right,
        } => append_stop_with_forms(
            alloc,
            text,
            b"stopped side too large ",
            &origin,
            &left,
            &right,
        ),
        Completed::TermLimit { origin } => append_stop(text, b"stopped term limit ", &origin),
        Completed::StepLimit { origin } => append_stop(text, b"stopped step limit ", &origin),
        Completed::Budget { origin } => append_stop(text, b"stopped budget ", &origin),
    }
}
