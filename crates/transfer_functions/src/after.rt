use x86_syntax::Repeat;

/// What follows an access.
#[derive(Clone, Copy)]
pub(crate) enum After {
    /// The next instruction.
    Next,
    /// A jump to a target, where it is known.
    Target(Option<u32>),
    /// One more repetition of a string operation.
    Count(Repeat),
}
