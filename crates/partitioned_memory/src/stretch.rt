ghost use Rattle.std.specs.Prelude.{◌≡◌, Bool};
ghost use Rattle.partitioned_memory.specs.declared.fact.Spot.{Spot};
ghost use Rattle.partitioned_memory.specs.Leaves.{before_edge};
ghost use Rattle.partitioned_memory.specs.Pairs.{spot_before};

use crate::fact::Spot;
use std::cmp::Ordering;

/// A stretch of an ascending list of pairs: it tells the pairs before it, and those after it.
pub(crate) trait Stretch<V> {
    ghost before: { Self → Spot × V → Bool };

    ghost after: { Self → Spot × V → Bool };

    /// Whether a pair lies before it.
    fn starts_after(&self, pair: &(Spot, V)) -> bool
        ensures { result ≡ before self.now pair.now };

    /// Whether a pair lies after it.
    fn ends_before(&self, pair: &(Spot, V)) -> bool
        ensures { result ≡ after self.now pair.now };
}

/// Where a stretch begins, and where it ends.
#[derive(Clone, Copy)]
pub(crate) enum Edge {
    Start,
    End,
}

// Whether a pair lies before an edge of a stretch.
pub(crate) fn is_before_edge<V, S: Stretch<V>>(stretch: &S, edge: Edge, pair: &(Spot, V)) -> bool
    ensures { result ≡ before_edge edge (S.before stretch.now) (S.after stretch.now) pair.now }
{
    match edge {
        Edge::Start => stretch.starts_after(pair),
        Edge::End => !stretch.ends_before(pair),
    }
}

// The pair of one spot.
impl<V> Stretch<V> for Spot {
    ghost before = { λ k p. spot_before p.0 k };

    ghost after = { λ k p. spot_before k p.0 };

    #[tactic(auto, unfolding(crate::specs::Pairs::spot_cmp))]
    fn starts_after(&self, pair: &(Spot, V)) -> bool {
        match pair.0.cmp(self) {
            Ordering::Less => true,
            Ordering::Equal | Ordering::Greater => false,
        }
    }

    #[tactic(auto, unfolding(crate::specs::Pairs::spot_cmp))]
    fn ends_before(&self, pair: &(Spot, V)) -> bool {
        match self.cmp(&pair.0) {
            Ordering::Less => true,
            Ordering::Equal | Ordering::Greater => false,
        }
    }
}
