// Laws drawn by a linear congruential generator.
ghost use Rattle.std.specs.Prelude.{◌≡◌, ◌<◌, ◌+◌, ◌*◌, ◌%◌, All, IfOk, vec_len};
ghost use Rattle.etp_theory.specs.LawNumbers.{IsLaw};
ghost use Rattle.etp_bench.specs.Filling.{IsBetweenLaws};

use std::alloc::{AllocError, Global};

/// A generator of numbers below 65537 by the linear congruence of factor 75 and increment 74.
#[derive(Drop)]
pub struct Draws {
    state: u32,
}

/// A fact that the hypothesis implies the goal.
#[derive(Clone, Copy)]
pub struct Implication {
    pub hypothesis: u32,
    pub goal: u32,
}

impl Draws {
    /// The generator at its first state.
    pub fn start() -> Draws
        ensures { result.state ≡ 1 }
    {
        Draws { state: 1 }
    }

    // The next number.
    fn next(&mut self) -> u32
        ensures below { result < 65537 }
    {
        self.state = self.state.wrapping_mul(75).wrapping_add(74) % 65537;
        self.state
    }

    /// A law of the first `laws`, by two numbers.
    pub fn law(&mut self, laws: u32) -> u32
        requires { 0 < laws }
        ensures { IsLaw laws result }
    {
        let high = self.next() as u64;
        let low = self.next() as u64;
        ((high * 65537 + low) % laws as u64) as u32 + 1
    }
}

/// As many implications between the first `laws` laws as are asked for.
pub fn draw_implications(
    alloc: Global,
    draws: &mut Draws,
    laws: u32,
    count: u16,
) -> Result<Vec<Implication>, AllocError>
    requires { 0 < laws }
    ensures within { IfOk result (λ drawn. All (IsBetweenLaws laws) drawn.items) }
    ensures len { IfOk result (λ drawn. vec_len drawn ≡ count) }
{
    let mut drawn = Vec::new(alloc);
    for _ in 0..count {
        let hypothesis = draws.law(laws);
        let goal = draws.law(laws);
        drawn.push(Implication { hypothesis, goal })?;
    }
    Ok(drawn)
}

/// As many of the first `laws` laws as are asked for.
pub fn draw_laws(
    alloc: Global,
    draws: &mut Draws,
    laws: u32,
    count: u64,
) -> Result<Vec<u32>, AllocError>
    requires { 0 < laws }
    ensures within { IfOk result (λ drawn. All (IsLaw laws) drawn.items) }
    ensures len { IfOk result (λ drawn. vec_len drawn ≡ count) }
{
    let mut drawn = Vec::new(alloc);
    for _ in 0..count {
        drawn.push(draws.law(laws))?;
    }
    Ok(drawn)
}
