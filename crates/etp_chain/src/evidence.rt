ghost use Rattle.std.specs.Prelude.{◌≡◌, ◌<◌, ◌++◌, ◌∷◌, [], length, slice_get, OnOk, OnErr, IsTrue, ◌↔◌};
ghost use Rattle.std.specs.Option.{option_copied};

use std::alloc::{AllocError, Global};
use std::marker::Model;

/// One step of a path: the hypothesis implies the goal by the file, counted from 0, or by its dual.
#[derive(Clone, Copy, Debug, PartialEq, Eq)]
pub struct Edge {
    pub hypothesis: u32,
    pub goal: u32,
    pub file: u32,
    pub dual: bool,
}

/// A list of edges, each from where the one before leads.
#[derive(Drop)]
pub struct Path {
    edges: Vec<Edge>,
}

impl Model for Path {
    ghost use Rattle.std.specs.Prelude.{List, ◌<◌, ◌^◌, vec_len};
    ghost use Rattle.etp_chain.specs.declared.evidence.Edge.{Edge};

    ghost Value = { List Edge };

    ghost view = { λ path. path.edges.items };

    ghost invariant = { λ path. vec_len path.edges < 2 ^ 32 };
}

impl Path {
    /// The path without edges.
    pub fn empty(alloc: Global) -> Path
        ensures { result ≡ [] }
    {
        Path {
            edges: Vec::new(alloc),
        }
    }

    /// How many edges the path has.
    pub fn len(&self) -> u32
        ensures { result ≡ length self.now }
    {
        self.edges.len() as u32
    }

    /// Whether the path has no edges.
    pub fn is_empty(&self) -> bool
        ensures { IsTrue result ↔ (self.now ≡ []) }
    {
        self.edges.is_empty()
    }

    /// The edge at a place, counted from 0.
    pub fn get(&self, at: u32) -> Option<&Edge>
        ensures { option_copied result ≡ slice_get self.now at }
    {
        self.edges.get(at as usize)
    }

    /// Appends an edge.
    pub fn push(&mut self, edge: Edge) -> Result<(), AllocError>
        requires { length self.old < 4294967295 }
        ensures ok { OnOk result (self.new ≡ self.old ++ edge ∷ []) }
        ensures err { OnErr result (self.new ≡ self.old) }
    {
        self.edges.push(edge)?;
        Ok(())
    }
}

/// Why a pair is covered: by the file, counted from 0, or by its dual, one law holds and another
/// fails. The first path leads from the law that holds to the pair's first law, the second one from
/// the pair's second law to the law that fails.
#[derive(Drop)]
pub struct Cover {
    pub file: u32,
    pub dual: bool,
    pub holds: u32,
    pub fails: u32,
    pub before: Path,
    pub after: Path,
}
