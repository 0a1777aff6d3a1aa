ghost use Rattle.std.specs.Prelude.{◌≡◌, ◌≤◌, ◌&&◌, true, false, ◌∷◌, [], ◌++◌, IfOk, IfNone, IfSome, drop, filter, length, not, slice_get, take};
ghost use Rattle.partitioned_memory.specs.Lists.{Every, Falls};
ghost use Rattle.partitioned_memory.specs.Leaves.{IsLeaf, before_edge, flattened, last_passes, pairs_in, pieces};
ghost use Rattle.partitioned_memory.specs.Pairs.{IsParted};

use crate::fact::Spot;
use crate::stretch::{Edge, Stretch, is_before_edge};
use bit_words::NoMemory;
use std::alloc::Global;
use std::sync::Arc;

/// A few pairs of a list, which lists share that have the same ones.
#[derive(Drop)]
pub(crate) struct Leaf<V> {
    pub(crate) pairs: Vec<(Spot, V)>,
}

// How many pairs a leaf may have. A store copies one leaf, and a copy of the list shares each.
const LARGEST: usize = 16;

// How many go into each leaf but the last where there are too many for one. Three hold two full leaves and a pair.
const PART: usize = 12;

impl<V: Copy> Leaf<V> {
    pub(crate) fn len(&self) -> usize
        ensures { result ≡ length self.now.pairs.items }
    {
        self.pairs.len()
    }

    pub(crate) fn get(&self, i: usize) -> Option<(Spot, V)>
        ensures { result ≡ slice_get self.now.pairs.items i }
    {
        self.pairs.get(i).copied()
    }

    // Whether its last pair lies before an edge of a stretch.
    fn is_before<S: Stretch<V>>(&self, stretch: &S, edge: Edge) -> bool
        ensures { result ≡ last_passes (before_edge edge (S.before stretch.now) (S.after stretch.now)) self.now.pairs.items }
    {
        match self.pairs.last() {
            Some(pair) => is_before_edge(stretch, edge, pair),
            None => false,
        }
    }
}

// How many pairs lie before an edge of a stretch: they come first.
fn place_of_pair<V: Copy, S: Stretch<V>>(pairs: &[(Spot, V)], stretch: &S, edge: Edge) -> usize
    requires { Falls (before_edge edge (S.before stretch.now) (S.after stretch.now)) pairs.now }
    ensures within { result ≤ length pairs.now }
    ensures front { Every (λ p. before_edge edge (S.before stretch.now) (S.after stretch.now) p ≡ true) (take result pairs.now) }
    ensures back { Every (λ p. before_edge edge (S.before stretch.now) (S.after stretch.now) p ≡ false) (drop result pairs.now) }
{
    pairs.partition_point(|pair| is_before_edge(stretch, edge, pair))
}

/// Appends those pairs of a leaf that are in a stretch.
pub(crate) fn push_within<V: Copy, S: Stretch<V>>(
    out: &mut Vec<(Spot, V)>,
    leaf: &Leaf<V>,
    stretch: &S,
) -> Result<(), NoMemory>
    requires { IsParted (S.before stretch.now) (S.after stretch.now) leaf.now.pairs.items }
    ensures { IfOk result (λ _. out.new.items ≡ out.old.items ++ filter (λ p. not (S.before stretch.now p) && not (S.after stretch.now p)) leaf.now.pairs.items) }
{
    let pairs = leaf.pairs.as_slice();
    let start = place_of_pair(pairs, stretch, Edge::Start);
    let end = place_of_pair(pairs, stretch, Edge::End);
    if end <= start {
        return Ok(());
    }
    out.extend_from_slice(&pairs[start..end])?;
    Ok(())
}

// How many leaves lie before it whole.
fn place_of_leaf<V: Copy, S: Stretch<V>>(leaves: &[Arc<Leaf<V>>], stretch: &S, edge: Edge) -> usize
    requires { Falls (λ leaf. last_passes (before_edge edge (S.before stretch.now) (S.after stretch.now)) (pairs_in leaf)) leaves.now }
    ensures within { result ≤ length leaves.now }
    ensures front { Every (λ leaf. last_passes (before_edge edge (S.before stretch.now) (S.after stretch.now)) (pairs_in leaf) ≡ true) (take result leaves.now) }
    ensures back { Every (λ leaf. last_passes (before_edge edge (S.before stretch.now) (S.after stretch.now)) (pairs_in leaf) ≡ false) (drop result leaves.now) }
{
    leaves.partition_point(|leaf| leaf.is_before(stretch, edge))
}

/// A list of pairs in two parts, which meet within a leaf.
#[derive(Drop)]
pub(crate) struct Cut<'a, V> {
    pub(crate) before: &'a [Arc<Leaf<V>>],
    pub(crate) left: &'a [(Spot, V)],
    pub(crate) right: &'a [(Spot, V)],
    pub(crate) after: &'a [Arc<Leaf<V>>],
}

/// The pairs before an edge of a stretch, and the others. None where there is no leaf.
pub(crate) fn cut_at<'a, V: Copy, S: Stretch<V>>(
    leaves: &'a [Arc<Leaf<V>>],
    stretch: &S,
    edge: Edge,
) -> Option<Cut<'a, V>>
    requires parted { Falls (before_edge edge (S.before stretch.now) (S.after stretch.now)) (flattened (pieces leaves.now)) }
    requires leaves { Every IsLeaf (pieces leaves.now) }
    ensures none { IfNone result (leaves.now ≡ []) }
    ensures front { IfSome result (λ c. flattened (pieces c.before.now) ++ c.left.now ≡ filter (before_edge edge (S.before stretch.now) (S.after stretch.now)) (flattened (pieces leaves.now))) }
    ensures back { IfSome result (λ c. c.right.now ++ flattened (pieces c.after.now) ≡ filter (λ p. not (before_edge edge (S.before stretch.now) (S.after stretch.now) p)) (flattened (pieces leaves.now))) }
    ensures next { IfSome result (λ c. c.right.now ≡ [] → flattened (pieces c.after.now) ≡ []) }
    ensures leaves_before { IfSome result (λ c. Every IsLeaf (pieces c.before.now)) }
    ensures leaves_after { IfSome result (λ c. Every IsLeaf (pieces c.after.now)) }
{
    if leaves.is_empty() {
        return None;
    }
    let at = place_of_leaf(&leaves[..leaves.len() - 1], stretch, edge);
    let pairs = leaves[at].pairs.as_slice();
    let here = place_of_pair(pairs, stretch, edge);
    let (left, right) = pairs.split_at(here);
    Some(Cut {
        before: &leaves[..at],
        left,
        right,
        after: &leaves[at + 1..],
    })
}

// Appends a leaf, which is shared from then on.
fn push_again<V: Copy>(out: &mut Vec<Arc<Leaf<V>>>, leaf: &Arc<Leaf<V>>) -> Result<(), NoMemory>
    ensures { IfOk result (λ _. pieces out.new.items ≡ pieces out.old.items ++ pairs_in leaf.now ∷ []) }
{
    out.push(Arc::try_clone(leaf)?)?;
    Ok(())
}

/// Appends leaves, which are shared from then on.
pub(crate) fn push_shared<V: Copy>(
    out: &mut Vec<Arc<Leaf<V>>>,
    leaves: &[Arc<Leaf<V>>],
) -> Result<(), NoMemory>
    ensures { IfOk result (λ _. pieces out.new.items ≡ pieces out.old.items ++ pieces leaves.now) }
{
    for leaf in leaves {
        push_again(out, leaf)?;
    }
    Ok(())
}

// Appends a leaf.
fn push_leaf<V: Copy>(
    alloc: Global,
    out: &mut Vec<Arc<Leaf<V>>>,
    pairs: &[(Spot, V)],
) -> Result<(), NoMemory>
    ensures { IfOk result (λ _. pieces out.new.items ≡ pieces out.old.items ++ pairs.now ∷ []) }
{
    let leaf = Leaf {
        pairs: Vec::from_slice(alloc, pairs)?,
    };
    out.push(Arc::new(alloc, leaf)?)?;
    Ok(())
}

/// Appends pairs, in as many leaves as they need.
pub(crate) fn push_pairs<V: Copy>(
    alloc: Global,
    out: &mut Vec<Arc<Leaf<V>>>,
    pairs: &[(Spot, V)],
) -> Result<(), NoMemory>
    requires { Every IsLeaf (pieces out.old.items) }
    ensures pairs { IfOk result (λ _. flattened (pieces out.new.items) ≡ flattened (pieces out.old.items) ++ pairs.now) }
    ensures leaves { IfOk result (λ _. Every IsLeaf (pieces out.new.items)) }
{
    let mut rest = pairs;
    while rest.len() > LARGEST {
        let (first, others) = rest.split_at(PART);
        push_leaf(alloc, out, first)?;
        rest = others;
    }
    if !rest.is_empty() {
        push_leaf(alloc, out, rest)?;
    }
    Ok(())
}
