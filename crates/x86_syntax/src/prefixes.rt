/// Which byte of the first prefix group stands: F0, F2 or F3.
#[derive(Clone, Copy)]
pub enum Group {
    Empty,
    Lock,
    Repne,
    Rep,
}

/// The prefixes before an opcode: that of the first group, the segment's byte, and whether 66 stands.
#[derive(Clone, Copy)]
pub struct Prefixes {
    pub group: Group,
    pub segment: Option<u8>,
    pub size: bool,
}
