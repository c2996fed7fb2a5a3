ghost use Rattle.std.specs.Prelude.{◌≡◌, ◌≤◌, IsTrue, OnErr, length};
ghost use Rattle.etp_theory.specs.LawNumbers.{IsLaw, IsOwnInverse};

mod plain;

use super::{Answer, Closure};
use plain::Plain;
use std::alloc::AllocError;
use std::rt::HostRuntime;

#[test]
fn laws_are_kept_and_answered_with_ample_memory(rt: HostRuntime) {
    match Closure::start(rt.alloc(), &[1, 2, 4, 3, 5]) {
        Ok(mut closure) => {
            assert_eq!(rt; closure.size(), 5);
            assert!(rt; closure.reserve(&[3], &[5, 1]).is_ok());
            assert!(rt; closure.slot(4).is_some());
            assert!(rt; closure.slot(2).is_none());
            assert_eq!(rt; closure.answer(3, 3), Answer::Implied);
            assert_eq!(rt; closure.answer(3, 5), Answer::Unsettled);
            assert_eq!(rt; closure.row_counts(2).implied, 1);
        }
        Err(_) => assert!(rt; false),
    }
}

// Whether a list names the dual of each law, and that one's is the law again.
fn is_own_inverse(duals: &[u32]) -> bool
    ensures { IsTrue result → IsOwnInverse duals.now }
{
    for (place, dual) in duals.iter().enumerate() {
        let law = *dual as usize;
        if law == 0 || law > duals.len() || duals[law - 1] as usize != place + 1 {
            return false;
        }
    }
    true
}

// Keeps three laws and adds an implication, or else a refutation.
fn add(closure: &mut Closure, a: u32, b: u32, c: u32, implies: bool) -> Result<(), AllocError>
    requires a_in { IsLaw (length closure.old.duals) a }
    requires b_in { IsLaw (length closure.old.duals) b }
    requires c_in { IsLaw (length closure.old.duals) c }
    ensures { closure.new.duals ≡ closure.old.duals }
{
    closure.reserve(&[a, b], &[c])?;
    if implies {
        closure.add_implication(a, c);
    } else {
        closure.add_refutation(&[a, b], &[c]);
    }
    Ok(())
}

// The dual of a law: laws 1 and 2 and so on are each other's up to 40, and the others their own.
fn dual(law: u32) -> u32
    requires { 1 ≤ law }
    ensures { 1 ≤ result }
{
    if law > 40 {
        law
    } else if law % 2 == 0 {
        law - 1
    } else {
        law + 1
    }
}

// The same fact in the plain form.
fn add_plain(plain: &mut Plain, a: u32, b: u32, c: u32, implies: bool) -> Result<(), AllocError>
    requires a_in { 1 ≤ a }
    requires b_in { 1 ≤ b }
    requires c_in { 1 ≤ c }
{
    if implies {
        plain.add_edge(a - 1, c - 1)?;
        plain.add_edge(dual(a) - 1, dual(c) - 1)?;
    } else {
        plain.add_pair(a - 1, c - 1)?;
        plain.add_pair(b - 1, c - 1)?;
        plain.add_pair(dual(a) - 1, dual(c) - 1)?;
        plain.add_pair(dual(b) - 1, dual(c) - 1)?;
    }
    plain.remake();
    Ok(())
}

// Whether both forms have equal answers for all pairs of 60 laws.
fn agree(closure: &Closure, plain: &Plain) -> bool
    requires { 60 ≤ length closure.now.duals }
{
    for e in 1..61 {
        for f in 1..61 {
            if closure.implied(e, f) != plain.implied(e - 1, f - 1)
                || closure.refuted(e, f) != plain.refuted(e - 1, f - 1)
            {
                return false;
            }
        }
    }
    true
}

// A law from 1 to 60, and the next state.
fn next_law(state: &mut u64) -> u32
    ensures from_one { 1 ≤ result }
    ensures to_last { result ≤ 60 }
{
    *state = state
        .wrapping_mul(6364136223846793005)
        .wrapping_add(1442695040888963407);
    ((*state >> 33) % 60) as u32 + 1
}

// Whether a random run of additions and clearings gives equal answers after each step.
fn run(closure: &mut Closure, plain: &mut Plain, steps: u32) -> Result<bool, AllocError>
    requires { 60 ≤ length closure.old.duals }
{
    let mut state = 4694;
    'again: for _ in 0..steps {
        let a = next_law(&mut state);
        let b = next_law(&mut state);
        let c = next_law(&mut state);
        let kind = next_law(&mut state);
        if kind == 60 {
            closure.clear();
            plain.clear();
            plain.remake();
        } else {
            add(closure, a, b, c, kind <= 40)?;
            add_plain(plain, a, b, c, kind <= 40)?;
        }
        if !agree(closure, plain) {
            return Ok(false);
        }
    }
    Ok(true)
}

#[test]
fn rows_of_bits_answer_as_tables_made_anew(rt: HostRuntime) {
    let mut duals = Vec::new(rt.alloc());
    for law in 1..61 {
        assert!(rt; duals.push(dual(law)).is_ok());
    }
    assert!(rt; is_own_inverse(&duals));
    if let Ok(mut closure) = Closure::start(rt.alloc(), &duals) {
        if let Ok(mut plain) = Plain::start(rt.alloc(), 60) {
            plain.remake();
            assert!(rt; closure.size() == 60);
            assert_eq!(rt; run(&mut closure, &mut plain, 90), Ok(true));
            return;
        }
    }
    assert!(rt; false);
}
