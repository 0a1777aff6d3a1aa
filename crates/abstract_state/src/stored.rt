use flow_log::Cause;

/// How a store went.
#[derive(Clone, Copy, Debug, PartialEq, Eq)]
pub enum Stored {
    Done,
    /// The machine's store faults, so that there is no next state.
    Faults,
    /// What is stored where is not known well enough, which leaves the location open.
    Stopped(Cause),
}
