use crate::Name;

/// A name that an image imports.
#[derive(Drop)]
pub struct ImportName {
    pub name: Name,
    /// Whether its place is not used: each symbol that imports it is weak and it has no stub, so its value is 0.
    pub zero: bool,
}
