// The copied table of a tested area: its fields, its arcs, and its chains, which are walked so that nobody passes over all N.
ghost use Rattle.std.specs.Prelude.{◌≡◌, ◌+◌, ◌*◌, ◌≤◌, ◌<◌};
ghost use Rattle.tables.specs.Table.{field_total, first, arc_at};
ghost use Rattle.tables.specs.Chains.{far, degree};
ghost use Rattle.areas.specs.Area.{fields_in, run_in};

use crate::tested::Tested;
use areas::{places, words};
use table_reader::Fields;
use tables::{Arc, Chain};

impl Fields for Tested<'_> {
    ghost fields = { λ area. fields_in area.words.now };

    ghost count = { λ area. field_total area.sizes.n area.sizes.m };

    fn field_at(self, j: usize) -> usize {
        words::unsigned(self.words[places::field_place(j)]) as usize
    }
}

impl Tested<'_> {
    // The first arc of the chain of p, or 0.
    pub fn first(self, c: Chain, p: usize) -> usize
        requires { (1 ≤ p) × (p ≤ self.sizes.n) }
        ensures { result ≡ first c (fields_in self.entry.words.now) p }
    {
        table_reader::first_in(self, c, p)
    }

    // Arc k.
    pub fn arc(self, k: usize) -> Arc
        requires { (1 ≤ k) × (k ≤ self.sizes.m) }
        ensures { result ≡ arc_at (fields_in self.entry.words.now) k }
    {
        table_reader::arc_in(self, self.sizes.n, k)
    }

    // How many processes b waits for, or how many wait for b: the arcs of its chain.
    pub fn degree(self, c: Chain, b: usize) -> u32
        requires { (1 ≤ b) × (b ≤ self.sizes.n) }
        ensures { result ≡ degree c (run_in self.entry.words.now).waits b }
    {
        let mut k = self.first(c, b);
        let mut d: u32 = 0;
        // Stays: an iterator over the arcs is no plainer: a struct of four fields and three ghost members, whose state would stand in each invariant.
        while k != 0 {
            d += 1;
            k = table_reader::next_of(c, self.arc(k));
        }
        d
    }
}

// The end of an arc that does not belong to the chain's process.
#[tactic(auto, unfolding(tables::specs::Chains::far))]
pub fn far_of(c: Chain, a: Arc) -> usize
    ensures { result ≡ far c a }
{
    match c {
        Chain::Out => a.to,
        Chain::In => a.from,
    }
}
