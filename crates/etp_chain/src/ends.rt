// One end of each edge: laws by place, with the places of each law threaded from the last one on.
ghost use Rattle.std.specs.Prelude.{◌≡◌, ℕ, ◌<◌, ◌++◌, ◌∷◌, [], length, slice_index, IfOk, OnOk};
ghost use Rattle.etp_chain.specs.Edges.{IsLast, IsEnds, size_of};

use std::alloc::{AllocError, Global};

// A place is written as one more than itself, and 0 stands for none.
#[derive(Drop)]
pub(crate) struct Ends {
    // The law at each place.
    pub(crate) laws: Vec<u32>,
    // The last place of each law.
    heads: Vec<usize>,
    // For each place the last one of its law before.
    earlier: Vec<usize>,
}

impl Ends {
    // No edges yet, of laws below the size.
    pub(crate) fn start(alloc: Global, size: usize) -> Result<Ends, AllocError>
        ensures none { IfOk result (λ ends. ends.laws.items ≡ []) }
        ensures ready { IfOk result (λ ends. IsEnds size ends) }
    {
        let heads = vec![in alloc; 0usize; size]?;
        Ok(Ends {
            laws: Vec::new(alloc),
            heads,
            earlier: Vec::new(alloc),
        })
    }

    // Puts a law at the next place.
    pub(crate) fn push(&mut self, law: u32) -> Result<(), AllocError>
        requires law_in { law < size_of self.old }
        requires ready { IsEnds (size_of self.old) self.old }
        ensures pushed { OnOk result (self.new.laws.items ≡ self.old.laws.items ++ law ∷ []) }
        ensures ready { OnOk result (IsEnds (size_of self.old) self.new) }
    {
        self.earlier.push(self.heads[law as usize])?;
        self.laws.push(law)?;
        self.heads[law as usize] = self.laws.len();
        Ok(())
    }

    // The last place of a law.
    pub(crate) fn last(&self, law: u32) -> usize
        requires law_in { law < size_of self.now }
        requires ready { IsEnds (size_of self.now) self.now }
        ensures { IsLast self.now.laws.items law (length self.now.laws.items) result }
    {
        self.heads[law as usize]
    }

    // The last place of the law at a place before that.
    pub(crate) fn before(&self, place: usize) -> usize
        requires place_in { place < length self.now.laws.items }
        requires ready { IsEnds (size_of self.now) self.now }
        ensures { IsLast self.now.laws.items (slice_index self.now.laws.items place) place result }
    {
        self.earlier[place]
    }
}
