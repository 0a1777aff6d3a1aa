/// The plainest domain: a value is one number, or any.
#[derive(Clone, Copy, Debug, PartialEq, Eq, Hash)]
pub enum FlatNumbers {
    /// This number alone.
    Number(u32),
    /// Every number.
    Any,
}
