ghost use Rattle.std.specs.Prelude.{◌≡◌, ◌+◌, ◌++◌, ℕ, List, length};
ghost use Rattle.etp_theory.specs.Trees.{Equation};
ghost use Rattle.etp_theory.specs.Sameness.{Same};
ghost use Rattle.etp_laws.specs.Listing.{Listed, IsTheList};
ghost use Rattle.etp_laws.specs.LawLists.{IsNumberOf, IsTrivial};

/// There is only one list of the listed laws of at most k operations.
pub fn the_list_is_one()
    ensures { (k : ℕ) (xs ys : List Equation) → IsTheList k xs → IsTheList k ys → xs ≡ ys }
{}

/// The list of one operation more begins with the list.
pub fn longer_list_begins_with_the_list()
    ensures { (k : ℕ) (xs ys : List Equation) → IsTheList k xs → IsTheList (k + 1) ys
        → (more : List Equation) × (ys ≡ xs ++ more) }
{}

/// The lists of at most four and five operations have 4694 and 62576 laws.
pub fn lists_are_this_long()
    ensures four { (xs : List Equation) → IsTheList 4 xs → length xs ≡ 4694 }
    ensures five { (xs : List Equation) → IsTheList 5 xs → length xs ≡ 62576 }
{}

/// A law has at most one number.
pub fn numbers_are_one()
    ensures { (k : ℕ) (laws : List Equation) (p : Equation) (n m : ℕ) → IsTheList k laws
        → IsNumberOf laws p n → IsNumberOf laws p m → n ≡ m }
{}

/// A law whose sides are equal and aren't a lone variable is the same as no listed law.
pub fn trivial_laws_have_no_number()
    ensures { (p e : Equation) → IsTrivial p → Listed e → ¬ Same p e }
{}
