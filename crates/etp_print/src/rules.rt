// The texts of refusals of rule systems.
ghost use Rattle.std.specs.Prelude.{◌≡◌, ◌++◌, ◌∷◌, [], IfOk, OnOk, codes, decimal, map};
ghost use Rattle.etp_term.specs.Terms.{tree_of};
ghost use Rattle.etp_term.specs.Positions as Positions;
ghost use Rattle.etp_term.specs.Positions.{position_of};
ghost use Rattle.etp_text.specs.Written.{written_term};
ghost use Rattle.etp_items.specs.Written.{side_letter, position_word};
ghost use Rattle.etp_print.specs.RulesTexts.{weight_name, cause_text, rules_refusal, pair_place, forms_text, numbered_forms_text, pairs_refusal};

use crate::refusal::append_with;
use etp_numbering::number_anew;
use etp_pairs::PairsRefusal;
use etp_rules::{Cause, RulesRefusal};
use etp_term::{Position, Side, Term};
use etp_text::Text;
use std::alloc::{AllocError, Global};

// Appends what a weight of this number is called.
fn append_weight_name(text: &mut Text, which: u8) -> Result<(), AllocError>
    ensures { OnOk result (text.new ≡ text.old ++ weight_name which) }
{
    match which {
        0 => text.append(b"a"),
        1 => text.append(b"b"),
        _ => text.append(b"c"),
    }
}

// Appends why a rule isn't decreasing.
fn append_cause(text: &mut Text, cause: Cause) -> Result<(), AllocError>
    ensures { OnOk result (text.new ≡ text.old ++ cause_text cause) }
{
    match cause {
        Cause::Variable(variable) => {
            text.append(b" variable ")?;
            text.append_term(&Term::Var(variable))
        }
        Cause::Constant => text.append(b" constant"),
    }
}

/// Appends why a weight or a rule isn't allowed.
pub fn append_rules_refusal(text: &mut Text, refusal: &RulesRefusal) -> Result<(), AllocError>
    ensures { OnOk result (text.new ≡ text.old ++ rules_refusal refusal.now) }
{
    match refusal {
        RulesRefusal::WeightRange { which } => {
            text.append(b"weight ")?;
            append_weight_name(text, *which)
        }
        RulesRefusal::SideTooLarge { rule } => append_with(text, b"side too large rule ", *rule),
        RulesRefusal::NotDecreasing { rule, cause } => {
            append_with(text, b"not decreasing rule ", *rule)?;
            append_cause(text, *cause)
        }
    }
}

// The letter of a side.
fn letter(side: Side) -> &'static [u8]
    ensures { result.now ≡ side_letter (Positions.side_of side) ∷ [] }
{
    match side {
        Side::L => b"l",
        Side::R => b"r",
    }
}

// Appends the letters of sides.
fn append_letters(text: &mut Text, sides: &[Side]) -> Result<(), AllocError>
    ensures { OnOk result (text.new ≡ text.old ++ map side_letter (position_of sides.now)) }
{
    for side in sides {
        text.append(letter(*side))?;
    }
    Ok(())
}

// Appends a position.
fn append_position(text: &mut Text, sides: &[Side]) -> Result<(), AllocError>
    ensures { OnOk result (text.new ≡ text.old ++ position_word (position_of sides.now)) }
{
    if sides.is_empty() {
        return text.append(b".");
    }
    append_letters(text, sides)
}

/// Appends where two rules overlap: the outer rule, the position in its left side, the inner rule.
pub fn append_place(
    text: &mut Text,
    outer: u32,
    position: &Position,
    inner: u32,
) -> Result<(), AllocError>
    ensures { OnOk result (text.new ≡ text.old ++ pair_place outer position.now inner) }
{
    text.append_number(u64::from(outer))?;
    text.append(b" ")?;
    append_position(text, position.as_slice())?;
    append_with(text, b" ", inner)
}

// Appends words and where two rules overlap.
fn append_pair(
    text: &mut Text,
    words: &[u8],
    outer: u32,
    position: &Position,
    inner: u32,
) -> Result<(), AllocError>
    ensures { OnOk result (text.new ≡ text.old
        ++ (words.now ++ pair_place outer position.now inner)) }
{
    text.append(words)?;
    append_place(text, outer, position, inner)
}

// Appends words and a term.
pub(crate) fn append_with_term(text: &mut Text, words: &[u8], term: &Term) -> Result<(), AllocError>
    ensures { OnOk result (text.new ≡ text.old ++ (words.now ++ written_term (tree_of term.now))) }
{
    text.append(words)?;
    text.append_term(term)
}

/// Appends two normal forms.
pub fn append_forms(text: &mut Text, left_form: &Term, right_form: &Term) -> Result<(), AllocError>
    ensures { OnOk result (text.new ≡ text.old
        ++ forms_text (tree_of left_form.now) (tree_of right_form.now)) }
{
    append_with_term(text, b": ", left_form)?;
    append_with_term(text, b" and ", right_form)
}

/// Appends two normal forms with their variables numbered anew, through the left one and then the
/// right one.
pub fn append_numbered_forms(
    alloc: Global,
    text: &mut Text,
    left_form: &Term,
    right_form: &Term,
) -> Result<(), AllocError>
    ensures { OnOk result (text.new ≡ text.old
        ++ numbered_forms_text (tree_of left_form.now) (tree_of right_form.now)) }
{
    let forms = number_anew(alloc, left_form, right_form)?;
    append_forms(text, &forms.first, &forms.second)
}

// Appends why rules aren't convergent.
pub(crate) fn append_pairs_refusal(
    alloc: Global,
    text: &mut Text,
    refusal: &PairsRefusal,
) -> Result<(), AllocError>
    ensures { OnOk result (text.new ≡ text.old ++ pairs_refusal refusal.now) }
{
    match refusal {
        PairsRefusal::Unjoinable {
            outer,
            position,
            inner,
            left_form,
            right_form,
        } => {
            append_pair(text, b"unjoinable ", *outer, position, *inner)?;
            append_numbered_forms(alloc, text, left_form, right_form)
        }
        PairsRefusal::TermLimit {
            outer,
            position,
            inner,
        } => append_pair(text, b"term limit pair ", *outer, position, *inner),
        PairsRefusal::StepLimit {
            outer,
            position,
            inner,
        } => append_pair(text, b"step limit pair ", *outer, position, *inner),
        PairsRefusal::NoMemory => Ok(()),
    }
}

/// Why a weight or a rule isn't allowed.
pub fn rules_text(alloc: Global, refusal: &RulesRefusal) -> Result<Text, AllocError>
    ensures { IfOk result (λ text. text ≡ rules_refusal refusal.now) }
{
    let mut text = Text::empty(alloc);
    append_rules_refusal(&mut text, refusal)?;
    Ok(text)
}

/// Why rules aren't convergent. The variables of two normal forms are numbered anew.
pub fn pairs_text(alloc: Global, refusal: &PairsRefusal) -> Result<Text, AllocError>
    ensures { IfOk result (λ text. text ≡ pairs_refusal refusal.now) }
{
    let mut text = Text::empty(alloc);
    append_pairs_refusal(alloc, &mut text, refusal)?;
    Ok(text)
}
