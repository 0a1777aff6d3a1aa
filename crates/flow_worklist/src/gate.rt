/// What a thread passes before it expands a row.
pub trait Gate: Sync {
    /// Called once for each row of a round, with its number, by the thread that expands the row, before it does. It takes no memory and returns.
    fn enter(&self, row: u32);
}

/// A gate that does nothing.
#[derive(Clone, Copy)]
pub struct OpenGate;

impl Gate for OpenGate {
    fn enter(&self, _row: u32) {}
}
