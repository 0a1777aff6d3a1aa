/// Which line of an automaton's text was read last.
#[derive(Clone, Copy, Debug, PartialEq, Eq)]
pub enum Stage {
    Start,
    Header,
    /// The entry or a location.
    Locations,
    Edges,
    Marks,
    Ended,
}
