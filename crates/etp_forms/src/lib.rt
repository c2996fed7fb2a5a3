//! Linear forms of terms: what a term's value is in a magma whose operation is A x + B y + c, and when
//! a law holds there. Stated for any carrier, as integers and vectors of them.
#![tactic(auto)]

ghost use Rattle.std.specs.Prelude.{ℕ, ℤ, List};
ghost use Rattle.etp_forms.specs.Theorems.{FormTheorems};

/// A term's value is that of its linear form, and a law holds exactly where both sides have one form;
/// here over integers and over lists of numbers, as a clause can't range over types.
pub fn form_theorems()
    ensures integers { FormTheorems ℤ }
    ensures vectors { FormTheorems (List ℕ) }
{}
