ghost use Rattle.std.specs.Prelude.{◌≡◌};
ghost use Rattle.flow_log.specs.Ordered.{ordered_set};
ghost use Rattle.flow_log.specs.Orders.{edge_cmp};

use crate::Edge;
use std::cmp::Ordering;

/// The members of a list in ascending order, each once; takes no memory.
pub fn sorted_set<T: Ord + Drop>(mut items: Vec<T>) -> Vec<T>
    requires { (x y : T) → T.cmp x y ≡ Ordering.Equal → x ≡ y }
    ensures { result.items ≡ ordered_set T.cmp items.items }
{
    items.sort_unstable();
    items.dedup();
    items
}

/// Edges in the order of every text, each once; takes no memory.
pub fn sorted_edges(edges: Vec<Edge>) -> Vec<Edge>
    ensures { result.items ≡ ordered_set edge_cmp edges.items }
{
    sorted_set(edges)
}
