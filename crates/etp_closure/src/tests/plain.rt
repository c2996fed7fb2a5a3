// The same answers in a plain form: square tables that are made anew by walks after each addition.
use std::alloc::{AllocError, Global};

#[derive(Drop)]
pub(super) struct Plain {
    laws: u32,
    edges: Vec<(u32, u32)>,
    pairs: Vec<(u32, u32)>,
    reached: Vec<bool>,
    covered: Vec<bool>,
}

// The place of a pair, or one past every table.
fn place(laws: u32, e: u32, f: u32) -> usize {
    (e as usize) * (laws as usize) + f as usize
}

fn has(table: &[bool], laws: u32, e: u32, f: u32) -> bool {
    table.get(place(laws, e, f)) == Some(&true)
}

fn put(table: &mut [bool], laws: u32, e: u32, f: u32) {
    let at = place(laws, e, f);
    if at < table.len() {
        table[at] = true;
    }
}

// Goes along each edge from each law, as often as a walk can be long.
fn walk(table: &mut [bool], laws: u32, edges: &[(u32, u32)]) {
    for _ in 0..laws {
        for edge in edges {
            for e in 0..laws {
                if has(table, laws, e, edge.0) {
                    put(table, laws, e, edge.1);
                }
            }
        }
    }
}

// Covers what each first law of a pair reaches against what reaches the second.
fn cover(table: &mut [bool], reached: &[bool], laws: u32, pairs: &[(u32, u32)]) {
    for pair in pairs {
        for e in 0..laws {
            if has(reached, laws, pair.0, e) {
                for f in 0..laws {
                    if has(reached, laws, f, pair.1) {
                        put(table, laws, e, f);
                    }
                }
            }
        }
    }
}

impl Plain {
    pub(super) fn start(alloc: Global, laws: u32) -> Result<Plain, AllocError> {
        let size = laws as usize * laws as usize;
        Ok(Plain {
            laws,
            edges: Vec::new(alloc),
            pairs: Vec::new(alloc),
            reached: vec![in alloc; false; size]?,
            covered: vec![in alloc; false; size]?,
        })
    }

    pub(super) fn add_edge(&mut self, from: u32, to: u32) -> Result<(), AllocError> {
        self.edges.push((from, to))?;
        Ok(())
    }

    pub(super) fn add_pair(&mut self, holds: u32, fails: u32) -> Result<(), AllocError> {
        self.pairs.push((holds, fails))?;
        Ok(())
    }

    pub(super) fn clear(&mut self) {
        self.edges.clear();
        self.pairs.clear();
    }

    // Makes both tables anew.
    pub(super) fn remake(&mut self) {
        self.reached.fill(false);
        self.covered.fill(false);
        for e in 0..self.laws {
            put(&mut self.reached, self.laws, e, e);
        }
        walk(&mut self.reached, self.laws, &self.edges);
        cover(&mut self.covered, &self.reached, self.laws, &self.pairs);
    }

    pub(super) fn implied(&self, e: u32, f: u32) -> bool {
        has(&self.reached, self.laws, e, f)
    }

    pub(super) fn refuted(&self, e: u32, f: u32) -> bool {
        has(&self.covered, self.laws, e, f)
    }
}
