use arrayvec::ArrayVec;

/// A number of bytes: the same at each call, or the argument with this index.
#[derive(Clone, Copy, Debug, PartialEq, Eq)]
pub enum Amount {
    Fixed(u32),
    Argument(u8),
}

/// What an imported function leaves in EAX, or that it does not return, or that it enters the function to which the
/// argument with this index points.
#[derive(Clone, Copy, Debug, PartialEq, Eq)]
pub enum Reply {
    Anything,
    Number(u32),
    Block {
        size: Amount,
        zeroed: bool,
        may_fail: bool,
    },
    Never,
    Enter(u8),
}

/// Bytes that an imported function writes from the address in the argument with index `arg` on.
#[derive(Clone, Copy, Debug, PartialEq, Eq)]
pub struct StubWrite {
    pub arg: u8,
    pub length: Amount,
}

impl Default for StubWrite {
    fn default() -> StubWrite {
        StubWrite {
            arg: 0,
            length: Amount::Fixed(0),
        }
    }
}

/// What an imported function does: it takes `args` bytes of arguments and takes `cleans` bytes off the stack.
#[derive(Drop)]
pub struct Stub {
    pub args: u8,
    pub cleans: u8,
    pub reply: Reply,
    pub writes: ArrayVec<StubWrite, 4>,
}
