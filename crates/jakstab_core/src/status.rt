ghost use Rattle.std.specs.Prelude.{◌≡◌, ◌≤◌, ◌+◌, ◌++◌, codes, decimal, length};
ghost use Rattle.arrayvec.specs.ArrayString.{array_string_len};
ghost use Rattle.text_fields.specs.Line.{newline};
ghost use Rattle.jakstab_core.specs.Inputs.{limit_of};
ghost use Rattle.jakstab_core.specs.StatusLine.{input_text, status_line, status_number};

use arrayvec::ArrayString;
use itoa::Buffer;

/// An input that a command names.
#[derive(Clone, Copy, Debug, PartialEq, Eq)]
pub enum Input {
    Image,
    Stubs,
    First,
    Second,
}

/// The most bytes of an image file.
const IMAGE_LIMIT: u64 = 16_777_216;

/// The most bytes of a stub file.
const STUBS_LIMIT: u64 = 1_048_576;

/// The most bytes of any other input.
const FURTHER_LIMIT: u64 = 67_108_864;

impl Input {
    /// The most bytes that it has.
    pub fn limit(self) -> u64
        ensures { result ≡ limit_of self }
    {
        match self {
            Input::Image => IMAGE_LIMIT,
            Input::Stubs => STUBS_LIMIT,
            Input::First => FURTHER_LIMIT,
            Input::Second => FURTHER_LIMIT,
        }
    }
}

/// How a call ended.
#[derive(Clone, Copy, Debug, PartialEq, Eq)]
pub enum Status {
    /// The command was done, and its output written whole.
    Done,
    /// The verdict is no.
    VerdictNo,
    /// The words are no command.
    Usage,
    /// The input could not be read.
    ReadFault(Input),
    /// The input is longer than its limit.
    TooLong(Input),
    /// The output could not be written whole.
    WriteFault,
    /// The image is refused for the fault of this number.
    ImageRefused(u32),
    /// The stub file is refused for the fault of this number.
    StubsRefused(u32),
    /// Memory ran out.
    Memory,
    /// A further input is refused at this line for the fault of this kind.
    InputRefused { line: u64, kind: u8 },
}

impl Status {
    /// The number with which the program ends.
    pub fn number(self) -> u8
        ensures { result ≡ status_number self }
    {
        match self {
            Status::Done => 0,
            Status::VerdictNo => 1,
            Status::Usage => 2,
            Status::ReadFault(_) => 3,
            Status::TooLong(_) => 3,
            Status::WriteFault => 4,
            Status::ImageRefused(_) => 5,
            Status::StubsRefused(_) => 6,
            Status::Memory => 7,
            Status::InputRefused { .. } => 8,
        }
    }

    /// The line that tells it, which is empty where the command was done; takes no memory.
    #[tactic(auto, unfolding(crate::specs::StatusLine::status_line))]
    pub fn line(self) -> ArrayString<64>
        ensures { result.bytes ≡ status_line self }
    {
        let mut line = ArrayString::new();
        match self {
            Status::Done => {}
            Status::VerdictNo => {}
            Status::Usage => line.push_str("jakstab: usage\n"),
            Status::ReadFault(input) => push_input(&mut line, "jakstab: cannot read ", input),
            Status::TooLong(input) => push_input(&mut line, "jakstab: too long ", input),
            Status::WriteFault => line.push_str("jakstab: cannot write\n"),
            Status::ImageRefused(n) => push_number(&mut line, "jakstab: image refused ", n),
            Status::StubsRefused(n) => push_number(&mut line, "jakstab: stubs refused ", n),
            Status::Memory => line.push_str("jakstab: no memory\n"),
            Status::InputRefused { line: at, kind } => push_place(&mut line, at, kind),
        }
        line
    }
}

#[tactic(auto, using(std::proofs::Common::append_assoc))]
fn push_input(line: &mut ArrayString<64>, words: &str, input: Input)
    requires { array_string_len line.old + length words.now ≤ 57 }
    ensures { line.new.bytes ≡ line.old.bytes ++ words.now ++ input_text input ++ newline }
{
    line.push_str(words);
    line.push_str(input_word(input));
    line.push('\n');
}

fn input_word(input: Input) -> &'static str
    ensures text { result.now ≡ input_text input }
    ensures short { length result.now ≤ 6 }
{
    match input {
        Input::Image => "image",
        Input::Stubs => "stubs",
        Input::First => "first",
        Input::Second => "second",
    }
}

#[tactic(auto, using(std::proofs::Common::append_assoc))]
fn push_number(line: &mut ArrayString<64>, words: &str, n: u32)
    requires { array_string_len line.old + length words.now ≤ 40 }
    ensures { line.new.bytes ≡ line.old.bytes ++ words.now ++ decimal n ++ newline }
{
    line.push_str(words);
    line.push_str(Buffer::new().format(n));
    line.push('\n');
}

#[tactic(auto, using(std::proofs::Common::append_assoc))]
fn push_place(line: &mut ArrayString<64>, at: u64, kind: u8)
    requires { array_string_len line.old ≡ 0 }
    ensures { line.new.bytes ≡ line.old.bytes ++ (codes "jakstab: input refused " ++ decimal at ++ codes " " ++ decimal kind ++ newline) }
{
    line.push_str("jakstab: input refused ");
    line.push_str(Buffer::new().format(at));
    line.push(' ');
    line.push_str(Buffer::new().format(kind));
    line.push('\n');
}
