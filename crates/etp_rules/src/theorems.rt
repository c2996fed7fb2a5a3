// What holds of all weights and rules.
ghost use Rattle.etp_rules.specs.Theorems.{RulesTheorems};

/// A weight and rules are allowed or refused in one way, never both.
pub fn rules_theorems()
    ensures { RulesTheorems }
{}
