ghost use Rattle.std.specs.Prelude.{◌≡◌};
ghost use Rattle.stub_file.specs.Keys.{key_name, word_name};

/// A key of a document.
#[derive(Clone, Copy)]
pub enum Key {
    StackAlign,
    Stub,
    Args,
    Cleans,
    Reply,
    Number,
    Size,
    SizeArg,
    Zeroed,
    MayFail,
    EnterArg,
    Writes,
    Arg,
    Length,
    LengthArg,
}

/// The word of a reply.
#[derive(Clone, Copy)]
pub enum Word {
    Any,
    Number,
    Block,
    Never,
    Enter,
}

/// The numbers from `low` to `high`.
#[derive(Clone, Copy)]
pub struct Numbers {
    pub low: u32,
    pub high: u32,
}

/// What the value of a key is.
#[derive(Clone, Copy)]
pub enum Kind {
    /// An integer among these numbers.
    Number(Numbers),
    /// A multiple of 4 from 0 to 64: some bytes of arguments.
    Bytes,
    /// A power of two from 4 to 4,096.
    Alignment,
    /// The index of an argument.
    Index,
    /// The word of a reply.
    Reply,
    /// A truth value.
    Truth,
    /// At most four tables.
    Writes,
    /// A table.
    Table,
}

/// Whether a key has to be there; of all keys of a table that are choices just one has to be.
#[derive(Clone, Copy)]
pub enum Need {
    Optional,
    Required,
    Choice,
}

/// A key of a table, what its value is, and the reply to which it belongs, where it belongs to one alone.
#[derive(Clone, Copy)]
pub struct Rule {
    pub key: Key,
    pub kind: Kind,
    pub reply: Option<Word>,
    pub need: Need,
}

/// Makes a line of a table of keys: whether the key has to be there, what its value is, and the reply that it belongs to.
macro_rules! rule {
    ($need:ident $key:ident, $kind:expr) => {
        Rule { key: Key::$key, kind: $kind, reply: None, need: Need::$need }
    };
    ($need:ident $key:ident, $kind:expr, $reply:ident) => {
        Rule { key: Key::$key, kind: $kind, reply: Some(Word::$reply), need: Need::$need }
    };
}

/// Makes a kind of numbers.
macro_rules! from {
    ($low:literal to $high:literal) => {
        Kind::Number(Numbers { low: $low, high: $high })
    };
}

/// The keys of a document.
pub static TOP_KEYS: [Rule; 2] = [
    rule!(Optional StackAlign, Kind::Alignment),
    rule!(Optional Stub, Kind::Table),
];

/// The keys of a stub.
pub static STUB_KEYS: [Rule; 10] = [
    rule!(Required Args, Kind::Bytes),
    rule!(Optional Cleans, Kind::Bytes),
    rule!(Required Reply, Kind::Reply),
    rule!(Required Number, from!(0 to 4_294_967_295), Number),
    rule!(Choice Size, from!(1 to 67_108_864), Block),
    rule!(Choice SizeArg, Kind::Index, Block),
    rule!(Optional Zeroed, Kind::Truth, Block),
    rule!(Optional MayFail, Kind::Truth, Block),
    rule!(Required EnterArg, Kind::Index, Enter),
    rule!(Optional Writes, Kind::Writes),
];

/// The keys of a write.
pub static WRITE_KEYS: [Rule; 3] = [
    rule!(Required Arg, Kind::Index),
    rule!(Choice Length, from!(0 to 67_108_864)),
    rule!(Choice LengthArg, Kind::Index),
];

/// The words of a reply.
pub static REPLIES: [Word; 5] = [
    Word::Any,
    Word::Number,
    Word::Block,
    Word::Never,
    Word::Enter,
];

impl Key {
    /// The key as it is written.
    pub fn name(self) -> &'static str
        ensures { result.now ≡ key_name self }
    {
        match self {
            Key::StackAlign => "stack_align",
            Key::Stub => "stub",
            Key::Args => "args",
            Key::Cleans => "cleans",
            Key::Reply => "reply",
            Key::Number => "number",
            Key::Size => "size",
            Key::SizeArg => "size_arg",
            Key::Zeroed => "zeroed",
            Key::MayFail => "may_fail",
            Key::EnterArg => "enter_arg",
            Key::Writes => "writes",
            Key::Arg => "arg",
            Key::Length => "length",
            Key::LengthArg => "length_arg",
        }
    }
}

impl Word {
    /// The word as it is written.
    pub fn name(self) -> &'static str
        ensures { result.now ≡ word_name self }
    {
        match self {
            Word::Any => "any",
            Word::Number => "number",
            Word::Block => "block",
            Word::Never => "never",
            Word::Enter => "enter",
        }
    }
}
