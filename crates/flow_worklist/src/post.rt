ghost use Rattle.std.specs.Prelude.{◌≡◌, [], IfOk};
ghost use Rattle.std.specs.Option.{IsSome};
ghost use Rattle.domain_laws.specs.Made.{values_of};
ghost use Rattle.memory_map.specs.Image.{name_at};
ghost use Rattle.x86_syntax.specs.Decodes.{decoded};
ghost use Rattle.x86_machine.specs.Machine.{label_by};
ghost use Rattle.abstract_state.specs.Expanding.{stopped};
ghost use Rattle.transfer_functions.specs.Fetching.{known_run};
ghost use Rattle.flow_worklist.specs.Post.{unlisted_cause};
ghost use Rattle.flow_worklist.specs.PostOf.{IsCodeOf, IsPostOf};

use crate::reading::Reading;
use crate::site::{Site, site_at};
use abstract_state::{Expansion, State};
use bit_words::NoMemory;
use domain_laws::Domain;
use flow_log::{Cause, Label};
use image_loader::Image;
use import_stubs::expand_stub;
use memory_map::Name;
use std::alloc::Global;
use stub_file::Stubs;
use transfer_functions::{KnownCode, expand_instr, known_code};
use x86_decoder::{DecodeFault, decode};
use x86_syntax::Instr;

/// The address of a row, its expansion, and the label of its steps.
#[derive(Drop)]
pub struct Post<D: Domain> {
    pub at: u32,
    pub expansion: Expansion<D>,
    pub label: Label,
}

/// The expansion of a row with a state at an address, with the label of its steps. Bytes that were read already are not decoded again.
pub fn expanded<D: Domain>(
    alloc: Global,
    image: &Image,
    stubs: &Stubs,
    k: u32,
    at: u32,
    s: &State<D>,
    reading: &Reading,
) -> Result<Post<D>, NoMemory>
    ensures { IfOk result (IsPostOf (values_of D.Domain.own D.eq) image.now stubs.now k at s.now) }
{
    match site_at(image, at) {
        Site::Exit => Ok(without_steps(at, Expansion::nothing(alloc))),
        Site::Import => Ok(Post {
            at,
            expansion: expand_stub(alloc, image, stubs, at, s)?,
            label: import_label(alloc, image, at)?,
        }),
        Site::Code => at_code(alloc, image, k, at, s, reading),
    }
}

// The expansion of a row at code: its instruction's, or the cause that it has none.
fn at_code<D: Domain>(
    alloc: Global,
    image: &Image,
    k: u32,
    at: u32,
    s: &State<D>,
    reading: &Reading,
) -> Result<Post<D>, NoMemory>
    ensures { IfOk result (IsCodeOf (values_of D.Domain.own D.eq) image.now k at s.now) }
{
    let known = known_code(image, at, s);
    if known.bytes == reading.bytes {
        return match &reading.found {
            Some(found) => at_instr(alloc, image, k, at, s, known, &found.0, found.1),
            None => unlisted(alloc, at, &known),
        };
    }
    match decode(known.bytes.as_slice()) {
        Ok((instr, size)) => at_instr(alloc, image, k, at, s, known, &instr, size),
        Err(_) => unlisted(alloc, at, &known),
    }
}

// The expansion of a row at an instruction, which the known bytes begin with.
fn at_instr<D: Domain>(
    alloc: Global,
    image: &Image,
    k: u32,
    at: u32,
    s: &State<D>,
    known: KnownCode,
    instr: &Instr,
    size: u8,
) -> Result<Post<D>, NoMemory>
    requires known { known.bytes.items ≡ known_run (values_of D.Domain.own D.eq) image.now s.now at }
    requires found { decoded known.bytes.items ≡ Some (instr.now, size) }
    ensures { IfOk result (IsCodeOf (values_of D.Domain.own D.eq) image.now k at s.now) }
{
    let expansion = expand_instr(alloc, image, at, instr, size, s, k)?;
    let mut bytes = known.bytes;
    bytes.truncate(usize::from(size));
    Ok(Post {
        at,
        expansion,
        label: Label::Code(bytes),
    })
}

// The expansion of a row whose known bytes begin with no instruction.
fn unlisted<D: Domain>(alloc: Global, at: u32, known: &KnownCode) -> Result<Post<D>, NoMemory>
    requires { decoded known.now.bytes.items ≡ None }
    ensures at { IfOk result (λ answer. answer.at ≡ at) }
    ensures expansion { IfOk result (λ answer. answer.expansion ≡ stopped (unlisted_cause known.now.cut known.now.bytes.items) []) }
{
    let cause = unlisted_cause(known);
    Ok(without_steps(at, Expansion::caused(alloc, cause)?))
}

// Why bytes that begin with no instruction do not.
fn unlisted_cause(known: &KnownCode) -> Cause
    requires { decoded known.now.bytes.items ≡ None }
    ensures { result ≡ unlisted_cause known.now.cut known.now.bytes.items }
{
    if !known.cut {
        return Cause::Bytes;
    }
    match decode(known.bytes.as_slice()) {
        Err(DecodeFault::Truncated) => Cause::Code,
        Err(DecodeFault::NotListed { .. }) => Cause::Bytes,
        Err(DecodeFault::TooLong) => Cause::Bytes,
        Ok(_) => unreachable!(),
    }
}

// An expansion without a next pair, which needs no label.
fn without_steps<D: Domain>(at: u32, expansion: Expansion<D>) -> Post<D>
    ensures at { result.at ≡ at }
    ensures expansion { result.expansion ≡ expansion }
{
    Post {
        at,
        expansion,
        label: Label::code(&[]),
    }
}

// The label of the import whose place an address is.
fn import_label(alloc: Global, image: &Image, at: u32) -> Result<Label, NoMemory>
    requires { IsSome (name_at image.now at) }
    ensures { IfOk result (λ label. label ≡ label_by (name_at image.now at) []) }
{
    match image.name_at(at) {
        Some(name) => match Name::new(Vec::from_slice(alloc, name)?) {
            Some(name) => Ok(Label::Import(name)),
            None => Ok(Label::code(&[])),
        },
        None => Ok(Label::code(&[])),
    }
}
