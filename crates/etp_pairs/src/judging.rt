// Whether two terms have one normal form.
ghost use Rattle.std.specs.Prelude.{IfOk};
ghost use Rattle.etp_term.specs.Terms.{tree_of};
ghost use Rattle.etp_rules.specs.Rules.{rules_of};
ghost use Rattle.etp_pairs.specs.Judging.{IsJudged};

use etp_rules::{Normal, RuleSystem};
use etp_term::{NoMemory, Term};
use std::alloc::Global;

/// What is found of two terms.
#[derive(Drop)]
pub enum Judged {
    /// Both have this normal form.
    OneForm(Term),
    /// They have these two.
    TwoForms(Term, Term),
    /// One of the walks comes to a term of more than 512 leaves.
    TermLimit,
    /// One of the walks has more than 100000 steps.
    StepLimit,
}

/// Whether both terms have one normal form; the walk of the left one is looked at first.
pub fn judge_terms(
    alloc: Global,
    system: &RuleSystem,
    left: &Term,
    right: &Term,
) -> Result<Judged, NoMemory>
    ensures { IfOk result (λ judged.
        IsJudged (rules_of system.now.rules) (tree_of left.now) (tree_of right.now) judged) }
{
    let left_form = match system.normal_form(alloc, left)? {
        Normal::Form(form) => form,
        Normal::TermLimit => return Ok(Judged::TermLimit),
        Normal::StepLimit => return Ok(Judged::StepLimit),
    };
    let right_form = match system.normal_form(alloc, right)? {
        Normal::Form(form) => form,
        Normal::TermLimit => return Ok(Judged::TermLimit),
        Normal::StepLimit => return Ok(Judged::StepLimit),
    };
    if left_form.same_term(&right_form) {
        return Ok(Judged::OneForm(left_form));
    }
    Ok(Judged::TwoForms(left_form, right_form))
}
