ghost use Rattle.std.specs.Prelude.{◌≡◌, ◌≤◌, ◌*◌, ℕ, IfOk, IfErr, OnOk, All, IsSome, length};
ghost use Rattle.etp_theory.specs.LawNumbers.{law_numbered};
ghost use Rattle.etp_theory.specs.Reach.{refutes};
ghost use Rattle.etp_closure.specs.Facts.{fact_of};
ghost use Rattle.etp_matrix.specs.Magmas.{IsShape};
ghost use Rattle.etp_rules.specs.Rules.{rules_of};
ghost use Rattle.etp_items.specs.Bodies.{body_of, proof_of, linear_in, matrix_in, weight_of, claims_of, proof, model, table, linear, matrix, rules};
ghost use Rattle.etp_check.specs.Checks.{fact_said, IsListedBody, HasContent, HasRules, AreCitedNumbers, IsValidBody, IsRightBody, IsRightModel, SaysRight};
ghost use Rattle.etp_check.specs.Refusals.{IsCheckRefused};

use crate::refusal::CheckRefusal;
use crate::system::system_of;
use etp_bits::Numbers;
use etp_canonical::judge;
use etp_closure::Fact;
use etp_items::{Body, Claims, LinearBody, MatrixBody, RulesBody, TableBody};
use etp_laws::Laws;
use etp_linear::Linear;
use etp_matrix::MatrixLinear;
use etp_pairs::convergent;
use etp_proof::Proof;
use etp_replay::replay;
use etp_table::OpTable;
use etp_term::NoMemory;
use std::alloc::Global;

/// Checks a body whose cited files prove the laws numbered `cited` from the same hypothesis, and
/// gives the fact that it states, which is right where the hypothesis implies these laws (Birkhoff
/// 1935). What a magma states is right without more.
pub fn check(alloc: Global, laws: &Laws, body: &Body, cited: &[u32]) -> Result<Fact, CheckRefusal>
    requires listed { IsListedBody laws.now.equations (body_of body.now) }
    requires content { HasContent (body_of body.now) }
    requires cited { AreCitedNumbers laws.now.equations (body_of body.now) cited.now }
    ensures fact { IfOk result (λ fact. fact_of fact ≡ fact_said (body_of body.now)) }
    ensures valid { OnOk result (IsValidBody laws.now.equations (body_of body.now) cited.now) }
    ensures right { OnOk result (SaysRight laws.now.equations (body_of body.now) cited.now) }
    ensures err { IfErr result (λ r. IsCheckRefused laws.now (body_of body.now) cited.now r) }
{
    match body {
        Body::Proof(proof) => check_proof(alloc, laws, proof, cited),
        Body::Table(table) => check_table(alloc, laws, table, cited),
        Body::Linear(linear) => check_linear(alloc, laws, linear, cited),
        Body::Matrix(matrix) => check_matrix(alloc, laws, matrix, cited),
        Body::Rules(rules) => check_rules(alloc, laws, rules, cited),
    }
}

fn check_proof(
    alloc: Global,
    laws: &Laws,
    body: &Proof,
    cited: &[u32],
) -> Result<Fact, CheckRefusal>
    requires listed { IsListedBody laws.now.equations (proof (proof_of body.now)) }
    requires content { HasContent (proof (proof_of body.now)) }
    requires cited { AreCitedNumbers laws.now.equations (proof (proof_of body.now)) cited.now }
    ensures fact { IfOk result (λ fact. fact_of fact ≡ fact_said (proof (proof_of body.now))) }
    ensures right { OnOk result
        (IsRightBody laws.now.equations (proof (proof_of body.now)) cited.now) }
    ensures err { IfErr result
        (λ r. IsCheckRefused laws.now (proof (proof_of body.now)) cited.now r) }
{
    match replay(alloc, laws, body, cited) {
        Ok(()) => Ok(Fact::Implies {
            hypothesis: body.hypothesis,
            goal: body.goal,
        }),
        Err(refusal) => Err(CheckRefusal::of(refusal)),
    }
}

fn check_table(
    alloc: Global,
    laws: &Laws,
    body: &TableBody,
    cited: &[u32],
) -> Result<Fact, CheckRefusal>
    requires some { 1 ≤ body.now.size }
    requires square { length body.now.entries ≡ body.now.size * body.now.size }
    requires holds { All (λ n. IsSome (law_numbered laws.now.equations n)) body.now.claims.holds }
    requires fails { All (λ n. IsSome (law_numbered laws.now.equations n)) body.now.claims.fails }
    ensures fact { IfOk result (λ fact. fact_of fact
        ≡ fact_said (model (table body.now.size body.now.entries) (claims_of body.now.claims))) }
    ensures right { OnOk result (IsRightModel laws.now.equations
        (table body.now.size body.now.entries) (claims_of body.now.claims)) }
    ensures err { IfErr result (λ r. IsCheckRefused laws.now
        (model (table body.now.size body.now.entries) (claims_of body.now.claims)) cited.now r) }
{
    let table = match OpTable::of(alloc, body.size, body.entries.as_slice()) {
        Ok(table) => table,
        Err(refusal) => return Err(CheckRefusal::of_table(refusal)),
    };
    let claims = &body.claims;
    match table.judge(laws, claims.holds.as_slice(), claims.fails.as_slice()) {
        Ok(()) => Ok(refutation(alloc, claims)?),
        Err(refusal) => Err(CheckRefusal::of_table(refusal)),
    }
}

fn check_linear(
    alloc: Global,
    laws: &Laws,
    body: &LinearBody,
    cited: &[u32],
) -> Result<Fact, CheckRefusal>
    requires holds { All (λ n. IsSome (law_numbered laws.now.equations n)) body.now.claims.holds }
    requires fails { All (λ n. IsSome (law_numbered laws.now.equations n)) body.now.claims.fails }
    ensures fact { IfOk result (λ fact. fact_of fact
        ≡ fact_said (model (linear (linear_in body.now)) (claims_of body.now.claims))) }
    ensures right { OnOk result (IsRightModel laws.now.equations
        (linear (linear_in body.now)) (claims_of body.now.claims)) }
    ensures err { IfErr result (λ r. IsCheckRefused laws.now
        (model (linear (linear_in body.now)) (claims_of body.now.claims)) cited.now r) }
{
    let linear = match Linear::of(body.ring, body.a, body.b, body.c) {
        Ok(linear) => linear,
        Err(refusal) => return Err(CheckRefusal::Linear(refusal)),
    };
    let claims = &body.claims;
    match linear.judge(laws, claims.holds.as_slice(), claims.fails.as_slice()) {
        Ok(()) => Ok(refutation(alloc, claims)?),
        Err(refusal) => Err(CheckRefusal::Linear(refusal)),
    }
}

fn check_matrix(
    alloc: Global,
    laws: &Laws,
    body: &MatrixBody,
    cited: &[u32],
) -> Result<Fact, CheckRefusal>
    requires shape { IsShape body.now.size body.now.a body.now.b body.now.c }
    requires holds { All (λ n. IsSome (law_numbered laws.now.equations n)) body.now.claims.holds }
    requires fails { All (λ n. IsSome (law_numbered laws.now.equations n)) body.now.claims.fails }
    ensures fact { IfOk result (λ fact. fact_of fact
        ≡ fact_said (model (matrix (matrix_in body.now)) (claims_of body.now.claims))) }
    ensures right { OnOk result (IsRightModel laws.now.equations
        (matrix (matrix_in body.now)) (claims_of body.now.claims)) }
    ensures err { IfErr result (λ r. IsCheckRefused laws.now
        (model (matrix (matrix_in body.now)) (claims_of body.now.claims)) cited.now r) }
{
    let a = body.a.as_slice();
    let b = body.b.as_slice();
    let matrix = match MatrixLinear::of(body.modulus, body.size, a, b, body.c.as_slice()) {
        Ok(matrix) => matrix,
        Err(refusal) => return Err(CheckRefusal::Matrix(refusal)),
    };
    let claims = &body.claims;
    match matrix.judge(laws, claims.holds.as_slice(), claims.fails.as_slice()) {
        Ok(()) => Ok(refutation(alloc, claims)?),
        Err(refusal) => Err(CheckRefusal::Matrix(refusal)),
    }
}

fn check_rules(
    alloc: Global,
    laws: &Laws,
    body: &RulesBody,
    cited: &[u32],
) -> Result<Fact, CheckRefusal>
    requires rules { HasRules (rules_of body.now.rules) }
    requires holds { All (λ n. IsSome (law_numbered laws.now.equations n)) body.now.claims.holds }
    requires fails { All (λ n. IsSome (law_numbered laws.now.equations n)) body.now.claims.fails }
    ensures fact { IfOk result (λ fact. fact_of fact
        ≡ fact_said (model (rules (weight_of body.now) (rules_of body.now.rules)) (claims_of body.now.claims))) }
    ensures right { OnOk result (IsRightModel laws.now.equations
        (rules (weight_of body.now) (rules_of body.now.rules)) (claims_of body.now.claims)) }
    ensures err { IfErr result (λ r. IsCheckRefused laws.now
        (model (rules (weight_of body.now) (rules_of body.now.rules)) (claims_of body.now.claims)) cited.now r) }
{
    let system = system_of(alloc, body)?;
    match convergent(alloc, &system) {
        Ok(()) => {}
        Err(refusal) => return Err(CheckRefusal::of_pairs(refusal)),
    }
    let claims = &body.claims;
    match judge(
        alloc,
        &system,
        laws,
        claims.holds.as_slice(),
        claims.fails.as_slice(),
    ) {
        Ok(()) => Ok(refutation(alloc, claims)?),
        Err(refusal) => Err(CheckRefusal::of_claim(refusal)),
    }
}

/// What claims state.
fn refutation(alloc: Global, claims: &Claims) -> Result<Fact, NoMemory>
    ensures { IfOk result (λ fact. fact_of fact ≡ refutes claims.now.holds claims.now.fails) }
{
    Ok(Fact::Refutes {
        holds: copied(alloc, &claims.holds)?,
        fails: copied(alloc, &claims.fails)?,
    })
}

fn copied(alloc: Global, numbers: &Numbers) -> Result<Numbers, NoMemory>
    ensures { IfOk result (λ copy. copy ≡ numbers.now) }
{
    let mut copy = Numbers::empty(alloc);
    copy.append(numbers.as_slice())?;
    Ok(copy)
}
