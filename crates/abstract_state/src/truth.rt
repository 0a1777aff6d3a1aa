ghost use Rattle.std.specs.Prelude.{◌≡◌};
ghost use Rattle.abstract_state.specs.Truth.{covers_truth, differ, either, negated_if, opposite, truth_of, truth_of_number};

/// What is known of a flag or of a test.
#[derive(Clone, Copy, Debug, PartialEq, Eq)]
pub enum Truth {
    Yes,
    No,
    Unknown,
}

impl Truth {
    /// What is known where it is known whether it holds.
    pub fn of(holds: bool) -> Truth
        ensures { result ≡ truth_of holds }
    {
        if holds { Truth::Yes } else { Truth::No }
    }

    /// Whether a number is not 0, where it is known.
    pub fn of_number(known: Option<u32>) -> Truth
        ensures { result ≡ truth_of_number known }
    {
        match known {
            Some(n) => Truth::of(n != 0),
            None => Truth::Unknown,
        }
    }

    /// What is known of the opposite.
    pub fn opposite(self) -> Truth
        ensures { result ≡ opposite self }
    {
        match self {
            Truth::Yes => Truth::No,
            Truth::No => Truth::Yes,
            Truth::Unknown => Truth::Unknown,
        }
    }

    /// The opposite where `flip` holds, and else this.
    pub fn negated_if(self, flip: bool) -> Truth
        ensures { result ≡ negated_if flip self }
    {
        if flip { self.opposite() } else { self }
    }

    /// What is known of one or the other.
    pub fn or(self, other: Truth) -> Truth
        ensures { result ≡ either self other }
    {
        match (self, other) {
            (Truth::Yes, _) => Truth::Yes,
            (_, Truth::Yes) => Truth::Yes,
            (Truth::No, Truth::No) => Truth::No,
            _ => Truth::Unknown,
        }
    }

    /// What is known of one without the other.
    pub fn xor(self, other: Truth) -> Truth
        ensures { result ≡ differ self other }
    {
        match self {
            Truth::Yes => other.opposite(),
            Truth::No => other,
            Truth::Unknown => Truth::Unknown,
        }
    }

    /// Whether this stands for all for which `other` stands.
    pub fn covers(self, other: Truth) -> bool
        ensures { result ≡ covers_truth self other }
    {
        match (self, other) {
            (Truth::Unknown, _) => true,
            (Truth::Yes, Truth::Yes) => true,
            (Truth::No, Truth::No) => true,
            _ => false,
        }
    }
}
