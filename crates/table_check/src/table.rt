use abstract_state::State;
use domain_laws::Domain;
use memory_map::Items;

/// States at locations, with the locations that are left open.
#[derive(Drop)]
pub struct Table<D: Domain> {
    /// How many values of one rank an exploration saw at a place before it raised others; refinement is bounded by it too. From 1 to 1,024.
    pub k: u32,
    /// A location and a state each.
    pub rows: Items<(u32, State<D>)>,
    /// The marked locations.
    pub marked: Items<u32>,
}
