// Files that cite others.
ghost use Rattle.std.specs.Prelude.{◌≡◌, ◌<◌, ◌^◌, ◌↔◌, All, Contains, IsTrue, IfOk, IfErr, OnOk, MatchOption, Some, length, map, slice_get};
ghost use Rattle.std.specs.Option.{option_map};
ghost use Rattle.etp_theory.specs.Reach.{implies};
ghost use Rattle.etp_closure.specs.Facts.{fact_of};
ghost use Rattle.etp_items.specs.Bodies.{body_of};
ghost use Rattle.etp_check.specs.Checks.{hypothesis_of, cites_of};
ghost use Rattle.etp_ledger.specs.Files.{body_named, IsFrom, goal_in, cited_goals, StandsAsProof};
ghost use Rattle.etp_ledger.specs.Withdrawing.{Cites as CitesName, IsFirstCiting};
ghost use Rattle.etp_ledger.specs.Refusals.{IsCiteRefused, AreCitesRefused};
ghost use Rattle.etp_ledger.specs.Kept.{files_of};

use crate::kept::{Files, Kept};
use crate::refusal::LedgerRefusal;
use etp_closure::Fact;
use etp_items::Body;
use etp_proof::Cites;
use std::alloc::Global;

// The file of a name.
pub(crate) fn find<'f>(files: &'f Files, name: &[u8]) -> Option<&'f Kept>
    ensures { option_map (λ kept. body_of kept.now.body) result ≡ body_named name.now (files_of files.now.entries) }
{
    files.get(name)
}

// The goals of the files that the body cites, each a proof from the body's hypothesis; else the
// first cite that is refused.
pub(crate) fn goals_cited(
    alloc: Global,
    files: &Files,
    body: &Body,
) -> Result<Vec<u32>, LedgerRefusal>
    ensures goals { IfOk result (λ goals. goals.items ≡ cited_goals (files_of files.now.entries) (body_of body.now)) }
    ensures ok { OnOk result (All (StandsAsProof (files_of files.now.entries) (hypothesis_of (body_of body.now))) (cites_of (body_of body.now))) }
    ensures err { IfErr result (λ r. AreCitesRefused (files_of files.now.entries) (hypothesis_of (body_of body.now)) (cites_of (body_of body.now)) r) }
{
    match body {
        Body::Proof(proof) => goals_of(alloc, files, proof.hypothesis, &proof.cites),
        Body::Table(_) | Body::Linear(_) | Body::Matrix(_) | Body::Rules(_) => Ok(Vec::new(alloc)),
    }
}

fn goals_of(
    alloc: Global,
    files: &Files,
    hypothesis: u32,
    cites: &Cites,
) -> Result<Vec<u32>, LedgerRefusal>
    ensures goals { IfOk result (λ goals. goals.items ≡ map (λ name. goal_in (body_named name (files_of files.now.entries))) cites.now) }
    ensures ok { OnOk result (All (StandsAsProof (files_of files.now.entries) (Some hypothesis)) cites.now) }
    ensures err { IfErr result (λ r. AreCitesRefused (files_of files.now.entries) (Some hypothesis) cites.now r) }
{
    let mut goals = Vec::with_capacity(alloc, cites.len() as usize)?;
    for at in 0..cites.len() {
        goals.push(goal_of(files, hypothesis, cite_at(cites, at), at + 1)?)?;
    }
    Ok(goals)
}

// The goal of the file that the cite of this number names.
fn goal_of(files: &Files, hypothesis: u32, name: &[u8], number: u32) -> Result<u32, LedgerRefusal>
    ensures goal { IfOk result (λ goal. goal ≡ goal_in (body_named name.now (files_of files.now.entries))) }
    ensures ok { OnOk result (StandsAsProof (files_of files.now.entries) (Some hypothesis) name.now) }
    ensures err { IfErr result (λ r. IsCiteRefused (files_of files.now.entries) (Some hypothesis) name.now number r) }
{
    match find(files, name) {
        None => Err(LedgerRefusal::CiteMissing { cite: number }),
        Some(kept) => match goal_from(&kept.fact, hypothesis) {
            None => Err(LedgerRefusal::CiteOther { cite: number }),
            Some(goal) => Ok(goal),
        },
    }
}

// The goal of a fact that is an implication from this hypothesis.
fn goal_from(fact: &Fact, hypothesis: u32) -> Option<u32>
    ensures { MatchOption result (¬ IsFrom (Some hypothesis) (fact_of fact.now)) (λ goal. fact_of fact.now ≡ implies hypothesis goal) }
{
    match fact {
        Fact::Implies {
            hypothesis: from,
            goal,
        } => {
            if *from == hypothesis {
                Some(*goal)
            } else {
                None
            }
        }
        Fact::Refutes { .. } => None,
    }
}

// The place of the first file that cites the name.
pub(crate) fn first_citing(files: &Files, name: &[u8]) -> Option<u32>
    requires { length files.now.entries < 2 ^ 32 }
    ensures { MatchOption result (All (λ file. ¬ CitesName name.now file) (files_of files.now.entries)) (λ at. IsFirstCiting (files_of files.now.entries) name.now at) }
{
    for at in 0..files.len() {
        if cites(&files[at].body, name) {
            return Some(at as u32);
        }
    }
    None
}

// Whether the body cites the name.
fn cites(body: &Body, name: &[u8]) -> bool
    ensures { IsTrue result ↔ Contains (cites_of (body_of body.now)) name.now }
{
    match body {
        Body::Proof(proof) => contains(&proof.cites, name),
        Body::Table(_) | Body::Linear(_) | Body::Matrix(_) | Body::Rules(_) => false,
    }
}

fn contains(cites: &Cites, name: &[u8]) -> bool
    ensures { IsTrue result ↔ Contains cites.now name.now }
{
    for at in 0..cites.len() {
        if cite_at(cites, at) == name {
            return true;
        }
    }
    false
}

fn cite_at(cites: &Cites, at: u32) -> &[u8]
    requires { at < length cites.now }
    ensures { slice_get cites.now at ≡ Some result.now }
{
    match cites.get(at) {
        Some(name) => name.as_slice(),
        None => unreachable!(),
    }
}
