ghost use Rattle.std.specs.Prelude.{◌≡◌, ◌≤◌, ◌*◌, IfOk, IfErr, OnOk, All, IsSome, length};
ghost use Rattle.etp_theory.specs.LawNumbers.{law_numbered};
ghost use Rattle.etp_theory.specs.Reach.{refutes};
ghost use Rattle.etp_closure.specs.Facts.{fact_of};
ghost use Rattle.etp_items.specs.Bodies.{linear_in, claims_of, table, linear};
ghost use Rattle.etp_cancel.specs.FiniteFacts.{IsRightFiniteFact};
ghost use Rattle.etp_finite_body.specs.FiniteBodies.{finite_proof_of};
ghost use Rattle.etp_finite_body.specs.FiniteBodies.{finite_body_of, proof, model};
ghost use Rattle.etp_finite_check.specs.FiniteChecks.{fact_said, IsListedBody, HasContent, IsFinitelyValidBody, IsRightBody, IsRightModel};
ghost use Rattle.etp_finite_check.specs.FiniteRefusals.{IsCheckRefused};

use crate::refusal::FiniteRefusal;
use etp_bits::Numbers;
use etp_closure::Fact;
use etp_finite_body::{FiniteBody, FiniteProof};
use etp_finite_replay::replay_finite;
use etp_items::{Claims, LinearBody, TableBody};
use etp_laws::Laws;
use etp_linear::Linear;
use etp_table::OpTable;
use etp_term::NoMemory;
use std::alloc::Global;

/// Checks a body, and gives the fact that it states, which is right of all finite magmas.
pub fn check_finite(alloc: Global, laws: &Laws, body: &FiniteBody) -> Result<Fact, FiniteRefusal>
    requires listed { IsListedBody laws.now.equations (finite_body_of body.now) }
    requires content { HasContent (finite_body_of body.now) }
    ensures fact { IfOk result (λ fact. fact_of fact ≡ fact_said (finite_body_of body.now)) }
    ensures valid { OnOk result
        (IsFinitelyValidBody laws.now.equations (finite_body_of body.now)) }
    ensures right { OnOk result
        (IsRightFiniteFact laws.now.equations (fact_said (finite_body_of body.now))) }
    ensures err { IfErr result (IsCheckRefused laws.now (finite_body_of body.now)) }
{
    match body {
        FiniteBody::Proof(proof) => check_proof(alloc, laws, proof),
        FiniteBody::Table(table) => check_table(alloc, laws, table),
        FiniteBody::Linear(linear) => check_linear(alloc, laws, linear),
    }
}

fn check_proof(alloc: Global, laws: &Laws, body: &FiniteProof) -> Result<Fact, FiniteRefusal>
    requires listed { IsListedBody laws.now.equations (proof (finite_proof_of body.now)) }
    requires content { HasContent (proof (finite_proof_of body.now)) }
    ensures fact { IfOk result
        (λ fact. fact_of fact ≡ fact_said (proof (finite_proof_of body.now))) }
    ensures right { OnOk result
        (IsRightBody laws.now.equations (proof (finite_proof_of body.now))) }
    ensures err { IfErr result (IsCheckRefused laws.now (proof (finite_proof_of body.now))) }
{
    match replay_finite(alloc, laws, body) {
        Ok(()) => Ok(Fact::Implies {
            hypothesis: body.hypothesis,
            goal: body.goal,
        }),
        Err(refusal) => Err(FiniteRefusal::of(refusal)),
    }
}

fn check_table(alloc: Global, laws: &Laws, body: &TableBody) -> Result<Fact, FiniteRefusal>
    requires some { 1 ≤ body.now.size }
    requires square { length body.now.entries ≡ body.now.size * body.now.size }
    requires holds { All (λ n. IsSome (law_numbered laws.now.equations n)) body.now.claims.holds }
    requires fails { All (λ n. IsSome (law_numbered laws.now.equations n)) body.now.claims.fails }
    ensures fact { IfOk result (λ fact. fact_of fact
        ≡ fact_said (model (table body.now.size body.now.entries) (claims_of body.now.claims))) }
    ensures right { OnOk result (IsRightModel laws.now.equations
        (table body.now.size body.now.entries) (claims_of body.now.claims)) }
    ensures err { IfErr result (IsCheckRefused laws.now
        (model (table body.now.size body.now.entries) (claims_of body.now.claims))) }
{
    let table = match OpTable::of(alloc, body.size, body.entries.as_slice()) {
        Ok(table) => table,
        Err(refusal) => return Err(FiniteRefusal::of_table(refusal)),
    };
    let claims = &body.claims;
    match table.judge(laws, claims.holds.as_slice(), claims.fails.as_slice()) {
        Ok(()) => Ok(separation(alloc, claims)?),
        Err(refusal) => Err(FiniteRefusal::of_table(refusal)),
    }
}

fn check_linear(alloc: Global, laws: &Laws, body: &LinearBody) -> Result<Fact, FiniteRefusal>
    requires holds { All (λ n. IsSome (law_numbered laws.now.equations n)) body.now.claims.holds }
    requires fails { All (λ n. IsSome (law_numbered laws.now.equations n)) body.now.claims.fails }
    ensures fact { IfOk result (λ fact. fact_of fact
        ≡ fact_said (model (linear (linear_in body.now)) (claims_of body.now.claims))) }
    ensures right { OnOk result (IsRightModel laws.now.equations
        (linear (linear_in body.now)) (claims_of body.now.claims)) }
    ensures err { IfErr result (IsCheckRefused laws.now
        (model (linear (linear_in body.now)) (claims_of body.now.claims))) }
{
    let linear = match Linear::of(body.ring, body.a, body.b, body.c) {
        Ok(linear) => linear,
        Err(refusal) => return Err(FiniteRefusal::Linear(refusal)),
    };
    let claims = &body.claims;
    match linear.judge(laws, claims.holds.as_slice(), claims.fails.as_slice()) {
        Ok(()) => Ok(separation(alloc, claims)?),
        Err(refusal) => Err(FiniteRefusal::Linear(refusal)),
    }
}

/// What claims state.
fn separation(alloc: Global, claims: &Claims) -> Result<Fact, NoMemory>
    ensures { IfOk result (λ fact. fact_of fact ≡ refutes claims.now.holds claims.now.fails) }
{
    Ok(Fact::Refutes {
        holds: copied(alloc, &claims.holds)?,
        fails: copied(alloc, &claims.fails)?,
    })
}

fn copied(alloc: Global, numbers: &Numbers) -> Result<Numbers, NoMemory>
    ensures { IfOk result (λ copy. copy ≡ numbers.now) }
{
    let mut copy = Numbers::empty(alloc);
    copy.append(numbers.as_slice())?;
    Ok(copy)
}
