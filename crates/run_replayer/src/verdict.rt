ghost use Rattle.std.specs.Prelude.{◌≡◌, ◌++◌, IfOk, OnOk};
ghost use Rattle.run_replayer.specs.VerdictLine.{is_no, kind_word, number_field, verdict_line};
ghost use Rattle.run_replayer.specs.Texts.{word_field};

use bit_words::NoMemory;
use std::alloc::Global;
use text_fields::{push_bytes, push_decimal, push_hex8};

/// Why a record is no run of the machine.
#[derive(Clone, Copy, Debug, PartialEq, Eq)]
pub enum RunKind {
    /// The machine stands elsewhere than where the step begins.
    From,
    Exited,
    Faulted,
    NotListed,
    NoStub,
    BadChoice,
    /// The machine comes elsewhere than where the step leads.
    To,
}

/// What comes of a record that is replayed against an automaton. Each has the number of a step first, counted from 0.
#[derive(Clone, Copy, Debug, PartialEq, Eq)]
pub enum Verdict {
    /// All of so many steps are edges, and no location on the way is open.
    Inside(u32),
    /// Before this step the machine stands at this open location.
    ReachedOpen(u32, u32),
    /// This step is none of the machine's.
    NotARun(u32, RunKind),
    /// This step, from the one address to the other, is no edge.
    NotAnEdge(u32, u32, u32),
}

impl Verdict {
    /// Whether the record is no run, or leaves the automaton by a step that is no edge.
    pub fn is_no(self) -> bool
        ensures { result ≡ is_no self }
    {
        match self {
            Verdict::Inside(_) | Verdict::ReachedOpen(_, _) => false,
            Verdict::NotARun(_, _) | Verdict::NotAnEdge(_, _, _) => true,
        }
    }
}

fn kind_word(kind: RunKind) -> &'static [u8]
    ensures { result.now ≡ kind_word kind }
{
    match kind {
        RunKind::From => b"from",
        RunKind::Exited => b"exited",
        RunKind::Faulted => b"faulted",
        RunKind::NotListed => b"notlisted",
        RunKind::NoStub => b"nostub",
        RunKind::BadChoice => b"badchoice",
        RunKind::To => b"to",
    }
}

#[tactic(auto, using(std::proofs::Common::append_assoc))]
fn push_number(out: &mut Vec<u8>, n: u32) -> Result<(), NoMemory>
    ensures { OnOk result (out.new.items ≡ out.old.items ++ number_field n) }
{
    push_bytes(out, b" ")?;
    push_decimal(out, u64::from(n))
}

#[tactic(auto, using(std::proofs::Common::append_assoc))]
fn push_address(out: &mut Vec<u8>, a: u32) -> Result<(), NoMemory>
    ensures { OnOk result (out.new.items ≡ out.old.items ++ word_field a) }
{
    push_bytes(out, b" ")?;
    push_hex8(out, a)
}

#[tactic(auto, using(std::proofs::Common::append_assoc))]
fn push_verdict(out: &mut Vec<u8>, verdict: Verdict) -> Result<(), NoMemory>
    ensures { OnOk result (out.new.items ≡ out.old.items ++ verdict_line verdict) }
{
    match verdict {
        Verdict::Inside(n) => {
            push_bytes(out, b"inside")?;
            push_number(out, n)?;
        }
        Verdict::ReachedOpen(n, at) => {
            push_bytes(out, b"open")?;
            push_number(out, n)?;
            push_address(out, at)?;
        }
        Verdict::NotARun(n, kind) => {
            push_bytes(out, b"notarun")?;
            push_number(out, n)?;
            push_bytes(out, b" ")?;
            push_bytes(out, kind_word(kind))?;
        }
        Verdict::NotAnEdge(n, from, to) => {
            push_bytes(out, b"notanedge")?;
            push_number(out, n)?;
            push_address(out, from)?;
            push_address(out, to)?;
        }
    }
    push_bytes(out, b"\n")
}

/// The line that says a verdict. Only want of memory refuses.
pub fn verdict_line(alloc: Global, verdict: Verdict) -> Result<Vec<u8>, NoMemory>
    ensures { IfOk result (λ text. text.items ≡ verdict_line verdict) }
{
    let mut out = Vec::new(alloc);
    push_verdict(&mut out, verdict)?;
    Ok(out)
}
