ghost use Rattle.std.specs.Prelude.{Bool, true, refl};
ghost use Rattle.etp_theory.specs.Sound.{sound as holds_after};

use super::{Magma, keeps_derived};

/// The operation that gives its second argument, on all values.
struct SecondOf;

impl Magma for SecondOf {
    type Value = u8;

    ghost inside = { λ m x. true };

    ghost times = { λ m x y. y };

    ghost closed = { λ m x y h k. refl };

    ghost sound = { λ m e f h d. holds_after (λ x. true) (λ x y. y) (λ x y i j. refl) e h d };
}

#[test]
fn a_magma_keeps_what_is_derived() {
    keeps_derived(&SecondOf);
}
