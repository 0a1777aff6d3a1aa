/// Which line of a table's text was read last.
#[derive(Clone, Copy, Debug, PartialEq, Eq)]
pub enum Stage {
    Start,
    Header,
    /// The line of k or of a marked location.
    Marks,
    Row,
    Regs,
    Flags,
    Note,
    Facts,
    Dirty,
    Blocks,
    Ended,
}
