ghost use Rattle.std.specs.Prelude.{◌≡◌, ◌++◌, ◌<◌, IfOk, OnOk, flat_map};
ghost use Rattle.run_replayer.specs.Texts.{bases_line, bit_digit, choice_fields, end_word, fill_line, flag_digits, flags_line, record_text, regs_line, start_lines, step_lines, word_field, word_fields};

use crate::{EndWord, RunRecord, RunStep};
use bit_words::NoMemory;
use memory_map::{Choice, Fill};
use std::alloc::Global;
use text_fields::{push_bool, push_bytes, push_hex_bytes, push_hex2, push_hex8};
use x86_machine::StartFile;

#[tactic(auto, using(std::proofs::Common::append_assoc))]
fn push_word(out: &mut Vec<u8>, n: u32) -> Result<(), NoMemory>
    ensures { OnOk result (out.new.items ≡ out.old.items ++ word_field n) }
{
    push_bytes(out, b" ")?;
    push_hex8(out, n)
}

fn push_words(out: &mut Vec<u8>, words: &[u32]) -> Result<(), NoMemory>
    ensures { OnOk result (out.new.items ≡ out.old.items ++ word_fields words.now) }
{
    for n in words {
        push_word(out, *n)?;
    }
    Ok(())
}

// The digit of a bit.
fn bit_digit(bit: u8) -> u8
    requires { bit < 2 }
    ensures { result ≡ bit_digit bit }
{
    b'0' + bit
}

#[tactic(auto, unfolding(crate::specs::Texts::flag_digits))]
fn push_flags(out: &mut Vec<u8>, flags: u8) -> Result<(), NoMemory>
    ensures { OnOk result (out.new.items ≡ out.old.items ++ flag_digits flags) }
{
    push_bytes(
        out,
        &[
            bit_digit(flags % 2),
            bit_digit(flags / 2 % 2),
            bit_digit(flags / 4 % 2),
            bit_digit(flags / 8 % 2),
            bit_digit(flags / 16 % 2),
            bit_digit(flags / 32 % 2),
        ],
    )
}

#[tactic(auto, unfolding(crate::specs::Texts::choice_fields), using(std::proofs::Common::append_assoc))]
fn push_choice(out: &mut Vec<u8>, c: &Choice) -> Result<(), NoMemory>
    ensures { OnOk result (out.new.items ≡ out.old.items ++ choice_fields c.now) }
{
    push_bytes(out, b" ")?;
    push_hex2(out, c.flags)?;
    push_words(out, &[c.eax, c.ecx, c.edx, c.base])?;
    push_bytes(out, b" ")?;
    push_bool(out, c.fails)
}

#[tactic(auto, unfolding(crate::specs::Texts::fill_line), using(std::proofs::Common::append_assoc))]
fn push_fill(out: &mut Vec<u8>, f: &Fill) -> Result<(), NoMemory>
    ensures { OnOk result (out.new.items ≡ out.old.items ++ fill_line f.now) }
{
    push_bytes(out, b"fill")?;
    push_word(out, f.at)?;
    push_bytes(out, b" ")?;
    push_hex_bytes(out, f.bytes.as_slice())?;
    push_bytes(out, b"\n")
}

fn push_fills(out: &mut Vec<u8>, fill: &[Fill]) -> Result<(), NoMemory>
    ensures { OnOk result (out.new.items ≡ out.old.items ++ flat_map fill_line fill.now) }
{
    for f in fill {
        push_fill(out, f)?;
    }
    Ok(())
}

#[tactic(auto, using(std::proofs::Common::append_assoc))]
fn push_regs(out: &mut Vec<u8>, regs: &[u32]) -> Result<(), NoMemory>
    ensures { OnOk result (out.new.items ≡ out.old.items ++ regs_line regs.now) }
{
    push_bytes(out, b"regs")?;
    push_words(out, regs)?;
    push_bytes(out, b"\n")
}

#[tactic(auto, using(std::proofs::Common::append_assoc))]
fn push_flags_line(out: &mut Vec<u8>, flags: u8) -> Result<(), NoMemory>
    ensures { OnOk result (out.new.items ≡ out.old.items ++ flags_line flags) }
{
    push_bytes(out, b"flags ")?;
    push_flags(out, flags)?;
    push_bytes(out, b"\n")
}

#[tactic(auto, using(std::proofs::Common::append_assoc))]
fn push_bases(out: &mut Vec<u8>, fs: u32, gs: u32) -> Result<(), NoMemory>
    ensures { OnOk result (out.new.items ≡ out.old.items ++ bases_line fs gs) }
{
    push_bytes(out, b"bases")?;
    push_word(out, fs)?;
    push_word(out, gs)?;
    push_bytes(out, b"\n")
}

#[tactic(auto, unfolding(crate::specs::Texts::start_lines), using(std::proofs::Common::append_assoc))]
fn push_start(out: &mut Vec<u8>, s: &StartFile) -> Result<(), NoMemory>
    ensures { OnOk result (out.new.items ≡ out.old.items ++ start_lines s.now) }
{
    push_regs(out, &s.regs)?;
    push_flags_line(out, s.flags)?;
    push_bases(out, s.fs, s.gs)?;
    push_fills(out, s.fill.as_slice())
}

#[tactic(auto, unfolding(crate::specs::Texts::step_lines), using(std::proofs::Common::append_assoc))]
fn push_step(out: &mut Vec<u8>, s: &RunStep) -> Result<(), NoMemory>
    ensures { OnOk result (out.new.items ≡ out.old.items ++ step_lines s.now) }
{
    push_bytes(out, b"step")?;
    push_word(out, s.from)?;
    push_word(out, s.to)?;
    push_choice(out, &s.choice)?;
    push_bytes(out, b"\n")?;
    push_fills(out, s.choice.fill.as_slice())
}

fn push_steps(out: &mut Vec<u8>, steps: &[RunStep]) -> Result<(), NoMemory>
    ensures { OnOk result (out.new.items ≡ out.old.items ++ flat_map step_lines steps.now) }
{
    for s in steps {
        push_step(out, s)?;
    }
    Ok(())
}

pub(crate) fn end_word(end: EndWord) -> &'static [u8]
    ensures { result.now ≡ end_word end }
{
    match end {
        EndWord::Steps => b"steps",
        EndWord::Exited => b"exited",
        EndWord::Faulted => b"faulted",
        EndWord::NotListed => b"notlisted",
        EndWord::NoStub => b"nostub",
        EndWord::BadChoice => b"badchoice",
    }
}

/// The text of a run record, version 1. Only want of memory refuses.
#[tactic(auto, unfolding(crate::specs::Texts::record_text), using(std::proofs::Common::append_assoc))]
pub fn print_record(alloc: Global, r: &RunRecord) -> Result<Vec<u8>, NoMemory>
    ensures { IfOk result (λ text. text.items ≡ record_text r.now) }
{
    let mut out = Vec::new(alloc);
    push_bytes(&mut out, b"jakstab-record 1\n")?;
    push_start(&mut out, &r.start)?;
    push_steps(&mut out, r.steps.as_slice())?;
    push_bytes(&mut out, b"end ")?;
    push_bytes(&mut out, end_word(r.end))?;
    push_bytes(&mut out, b"\n")?;
    Ok(out)
}
