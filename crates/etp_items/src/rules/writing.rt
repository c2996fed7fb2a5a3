// The text of a rule system.
ghost use Rattle.std.specs.Prelude.{◌≡◌, ◌++◌, ◌∷◌, [], map, OnOk};
ghost use Rattle.etp_rules.specs.Rules.{rule_of, rules_of};
ghost use Rattle.etp_lines.specs.RulesLines as Lines;
ghost use Rattle.etp_items.specs.Bodies.{rules, weight_of};
ghost use Rattle.etp_items.specs.Written.{written_by, written_rules_line, model_text};

use crate::body::RulesBody;
use crate::numbers::append_numbers;
use etp_rules::{Rule, RuleList};
use etp_term::NoMemory;
use etp_text::Text;

/// Appends the lines of a rule system.
pub(crate) fn append_system(text: &mut Text, body: &RulesBody) -> Result<(), NoMemory>
    ensures { OnOk result (text.new ≡ text.old
        ++ model_text (rules (weight_of body.now) (rules_of body.now.rules))) }
{
    let [on_left, on_right, added] = body.weight;
    text.append(b"rules\n")?;
    append_numbers(text, b"weight", &[on_left, on_right, added])?;
    append_rules(text, &body.rules)
}

/// Appends the lines of rules.
fn append_rules(text: &mut Text, rules: &RuleList) -> Result<(), NoMemory>
    ensures { OnOk result (text.new ≡ text.old
        ++ written_by written_rules_line (map Lines.rule (rules_of rules.now))) }
{
    for at in 0..rules.len() {
        if let Some(rule) = rules.get(at) {
            append_rule(text, rule)?;
        }
    }
    Ok(())
}

fn append_rule(text: &mut Text, rule: &Rule) -> Result<(), NoMemory>
    ensures { OnOk result (text.new ≡ text.old
        ++ written_by written_rules_line (Lines.rule (rule_of rule.now) ∷ [])) }
{
    text.append(b"rule ")?;
    text.append_term(&rule.left)?;
    text.append(b" -> ")?;
    text.append_term(&rule.right)?;
    text.append(b"\n")
}
