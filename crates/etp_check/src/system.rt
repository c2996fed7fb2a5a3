// The rule system of a body.
ghost use Rattle.std.specs.Prelude.{◌≡◌, IfOk, IfErr};
ghost use Rattle.etp_rules.specs.Rules.{rules_of};
ghost use Rattle.etp_rules.specs.Weighing as Weighing;
ghost use Rattle.etp_items.specs.Bodies.{weight_of};
ghost use Rattle.etp_check.specs.Checks.{HasRules};
ghost use Rattle.etp_check.specs.Refusals.{IsSystemRefused};

use crate::refusal::CheckRefusal;
use etp_items::RulesBody;
use etp_rules::RuleSystem;
use std::alloc::Global;

/// The rule system of a body. It is refused with `Rules` where its weight or a rule isn't allowed.
pub fn system_of(alloc: Global, body: &RulesBody) -> Result<RuleSystem, CheckRefusal>
    requires { HasRules (rules_of body.now.rules) }
    ensures weight { IfOk result (λ s. Weighing.weight_of s.weights ≡ weight_of body.now) }
    ensures rules { IfOk result (λ s. s.rules ≡ body.now.rules) }
    ensures err { IfErr result (λ r. IsSystemRefused (weight_of body.now) (rules_of body.now.rules) r) }
{
    let rules = body.rules.copy(alloc)?;
    match RuleSystem::of(body.weight, rules) {
        Ok(system) => Ok(system),
        Err(refusal) => Err(CheckRefusal::Rules(refusal)),
    }
}
