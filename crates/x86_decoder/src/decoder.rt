ghost use Rattle.std.specs.Prelude.{◌≡◌, ◌==◌, ◌&&◌, ℕ, ◌+◌, ◌^◌, ◌<◌, ◌≤◌, ◌∷◌, [], length, take, Some, IfOk, IfErr, IfSome};
ghost use Rattle.std.specs.Result.{result_ok};
ghost use Rattle.x86_syntax.specs.Formats.{Byte, matched};
ghost use Rattle.x86_syntax.specs.Opcodes.{opcode_row, row_of, takes_modrm, may_escape, may_escape_twice};
ghost use Rattle.x86_syntax.specs.Spelling.{spelled_with, opcodes, escaped, opcode_then, behind_modrm, place_then, address_then, ending, is_wrong_place, mod_of, reg_of, row_number_size};
ghost use Rattle.x86_syntax.specs.Decodes.{Decodes, HasSpelling, decoded};
ghost use Rattle.x86_decoder.specs.Refusals.{Refused};
ghost use Rattle.x86_decoder.specs.Reading.{Reads, ReadsOrDead, IsLeastBelow, fault_at, shortest_behind, shortest_escaped};

use crate::DecodeFault;
use crate::operands::{
    Pieces, address, displacement_bytes, index_of, instr, number, reg, row_size, unnumbered,
    wants_memory, wants_register,
};
use crate::prefix_bytes::{add_prefix, is_prefix_byte};
use x86_syntax::{Group, Instr, Map, Place, Prefixes, Row, find_opcode, find_row};

/// The instruction at the front of `bytes`, and how many bytes it takes, at most 15; takes no memory.
///
/// Refuses exactly where no listed instruction of at most 15 bytes stands there: NotListed where the first 15 bytes, or all
/// where there are fewer, begin no listed instruction, Truncated where fewer than 15 begin one of at most 15, else TooLong.
pub fn decode(bytes: &[u8]) -> Result<(Instr, u8), DecodeFault>
    ensures exact { result_ok result ≡ decoded bytes.now }
    ensures found { IfOk result (λ p. Decodes bytes.now p.0 p.1) }
    ensures spelling { IfOk result (λ p. HasSpelling p.0 p.1) }
    ensures refused { IfErr result (λ fault. Refused fault bytes.now) }
{
    let none = Prefixes {
        group: Group::Empty,
        segment: None,
        size: false,
    };
    read(none, first_bytes(bytes), 0)
}

/// The first 15 bytes, or all where there are fewer.
fn first_bytes(bytes: &[u8]) -> &[u8]
    ensures value { result.now ≡ take 15 bytes.now }
    ensures bound { length result.now ≤ 15 }
{
    &bytes[..bytes.len().min(15)]
}

/// The fault where the bytes end after `at`, and the shortest instruction that goes on has `need` more.
fn short(at: u8, need: u8) -> DecodeFault
    requires { at + need < 2 ^ 8 }
    ensures { result ≡ fault_at (at + need) }
{
    if at + need <= 15 {
        DecodeFault::Truncated
    } else {
        DecodeFault::TooLong
    }
}

/// Reads on behind these prefixes.
fn read(prefixes: Prefixes, bytes: &[u8], at: u8) -> Result<(Instr, u8), DecodeFault>
    requires { at + length bytes.now ≤ 15 }
    ensures { Reads (spelled_with prefixes) bytes.now at result }
{
    match bytes.split_first() {
        None => Err(short(at, least_behind(prefixes.group))),
        Some((b, rest)) => {
            if !is_prefix_byte(*b) {
                return read_opcode(prefixes, *b, rest, at + 1);
            }
            match add_prefix(prefixes, *b) {
                None => Err(DecodeFault::NotListed { at }),
                Some(more) => read(more, rest, at + 1),
            }
        }
    }
}

/// How many bytes the shortest instruction has behind a prefix of this group.
fn least_behind(group: Group) -> u8
    ensures { result ≡ shortest_behind group }
{
    match group {
        Group::Lock => 2,
        _ => 1,
    }
}

/// Reads on behind the first byte of an opcode.
fn read_opcode(
    prefixes: Prefixes,
    code: u8,
    bytes: &[u8],
    at: u8,
) -> Result<(Instr, u8), DecodeFault>
    requires some { 1 ≤ at }
    requires few { at + length bytes.now ≤ 15 }
    ensures { ReadsOrDead (matched (opcodes prefixes code)) bytes.now at result }
{
    if code == 0x0F {
        read_second(prefixes, bytes, at)
    } else {
        read_row(prefixes, Map::One, code, bytes, at)
    }
}

/// Reads on behind 0F.
fn read_second(prefixes: Prefixes, bytes: &[u8], at: u8) -> Result<(Instr, u8), DecodeFault>
    requires some { 1 ≤ at }
    requires few { at + length bytes.now ≤ 15 }
    ensures { ReadsOrDead (matched (Byte (λ code. escaped prefixes code))) bytes.now at result }
{
    if !escapes(prefixes) {
        return Err(DecodeFault::NotListed { at: at - 1 });
    }
    match bytes.split_first() {
        None => Err(short(at, least_escaped(prefixes))),
        Some((code, rest)) => {
            if *code == 0x1E {
                return read_third(prefixes, rest, at + 1);
            }
            read_row(prefixes, Map::Two, *code, rest, at + 1)
        }
    }
}

/// Whether the opcodes behind 0F are listed behind these prefixes.
fn escapes(prefixes: Prefixes) -> bool
    ensures { result ≡ may_escape prefixes.group prefixes.size }
{
    match prefixes.group {
        Group::Empty | Group::Lock => true,
        Group::Rep => !prefixes.size,
        Group::Repne => false,
    }
}

/// How many bytes the shortest instruction has behind these prefixes and 0F.
fn least_escaped(prefixes: Prefixes) -> u8
    ensures { result ≡ shortest_escaped prefixes.group prefixes.size }
{
    if matches!(prefixes.group, Group::Empty) && !prefixes.size {
        1
    } else {
        2
    }
}

/// Reads on behind 0F 1E.
fn read_third(prefixes: Prefixes, bytes: &[u8], at: u8) -> Result<(Instr, u8), DecodeFault>
    requires some { 1 ≤ at }
    requires few { at + length bytes.now ≤ 15 }
    ensures { ReadsOrDead (matched (Byte (λ code. opcode_then prefixes Map.Three code))) bytes.now at result }
{
    if !escapes_twice(prefixes) {
        return Err(DecodeFault::NotListed { at: at - 1 });
    }
    match bytes.split_first() {
        None => Err(short(at, 1)),
        Some((code, rest)) => read_row(prefixes, Map::Three, *code, rest, at + 1),
    }
}

/// Whether the opcode behind 0F 1E is listed behind these prefixes.
fn escapes_twice(prefixes: Prefixes) -> bool
    ensures { result ≡ may_escape_twice prefixes.group prefixes.size }
{
    matches!(prefixes.group, Group::Rep) && !prefixes.size
}

/// Reads on behind an opcode of a map.
fn read_row(
    prefixes: Prefixes,
    map: Map,
    code: u8,
    bytes: &[u8],
    at: u8,
) -> Result<(Instr, u8), DecodeFault>
    requires some { 1 ≤ at }
    requires few { at + length bytes.now ≤ 15 }
    ensures { ReadsOrDead (matched (opcode_then prefixes map code)) bytes.now at result }
{
    match find_opcode(prefixes, map, code) {
        None => Err(DecodeFault::NotListed { at: at - 1 }),
        Some(row) => {
            if row.takes_modrm() {
                return read_modrm(prefixes, map, code, row, bytes, at);
            }
            read_ending(
                prefixes,
                row,
                unnumbered(code, 0, Place::Register(0)),
                bytes,
                at,
            )
        }
    }
}

/// Reads on behind an opcode with a ModRM byte, of which `first` is a row.
fn read_modrm(
    prefixes: Prefixes,
    map: Map,
    code: u8,
    first: Row,
    bytes: &[u8],
    at: u8,
) -> Result<(Instr, u8), DecodeFault>
    requires row { opcode_row prefixes map code ≡ Some first }
    requires few { at + length bytes.now ≤ 15 }
    ensures { Reads (matched (Byte (λ m. behind_modrm prefixes (row_of prefixes map code (reg_of m)) code m))) bytes.now at result }
{
    match bytes.split_first() {
        None => Err(short(at, 1 + least_number(prefixes, map, code, first))),
        Some((modrm, rest)) => match find_row(prefixes, map, code, reg(*modrm)) {
            None => Err(DecodeFault::NotListed { at }),
            Some(row) => {
                if is_wrong_place(prefixes, row, *modrm) {
                    return Err(DecodeFault::NotListed { at });
                }
                read_place(prefixes, row, code, *modrm, rest, at + 1)
            }
        },
    }
}

/// Whether the ModRM byte names a register where only memory is listed, or memory where only a register is.
fn is_wrong_place(prefixes: Prefixes, row: Row, modrm: u8) -> bool
    ensures { result ≡ is_wrong_place prefixes row (mod_of modrm) }
{
    if modrm / 64 == 3 {
        wants_memory(prefixes, row)
    } else {
        wants_register(row)
    }
}

/// The least number of bytes behind the address in the rows of an opcode.
fn least_number(prefixes: Prefixes, map: Map, code: u8, first: Row) -> u8
    requires { opcode_row prefixes map code ≡ Some first }
    ensures least { IsLeastBelow 8 prefixes map code result }
    ensures bound { result ≤ 12 }
{
    let mut least = size_at(prefixes, map, code, first.low);
    for reg in 0..8u8 {
        least = lesser(prefixes, map, code, reg, least);
    }
    least
}

/// The lesser of a number and the number of bytes behind the address in the row with this reg field.
fn lesser(prefixes: Prefixes, map: Map, code: u8, reg: u8, least: u8) -> u8
    requires { reg < 8 }
    ensures least { IsLeastBelow reg prefixes map code least → IsLeastBelow (reg + 1) prefixes map code result }
    ensures bound { result ≤ least }
{
    match find_row(prefixes, map, code, reg) {
        Some(row) => least.min(row_size(prefixes, row)),
        None => least,
    }
}

/// The number of bytes behind the address in the row with this reg field, if there is one.
fn size_at(prefixes: Prefixes, map: Map, code: u8, reg: u8) -> u8
    ensures value { IfSome (row_of prefixes map code reg) (λ row. result ≡ row_number_size prefixes row) }
    ensures bound { result ≤ 12 }
{
    match find_row(prefixes, map, code, reg) {
        Some(row) => row_size(prefixes, row),
        None => 0,
    }
}

/// Reads on behind a ModRM byte.
fn read_place(
    prefixes: Prefixes,
    row: Row,
    code: u8,
    modrm: u8,
    bytes: &[u8],
    at: u8,
) -> Result<(Instr, u8), DecodeFault>
    requires small { row_number_size prefixes row ≤ 4 }
    requires few { at + length bytes.now ≤ 15 }
    ensures { Reads (matched (place_then modrm (λ place. ending prefixes row code modrm place))) bytes.now at result }
{
    let mode = modrm / 64;
    let rm = modrm % 8;
    if mode == 3 {
        return read_ending(
            prefixes,
            row,
            unnumbered(code, modrm, Place::Register(rm)),
            bytes,
            at,
        );
    }
    if rm != 4 {
        return read_address(prefixes, row, code, modrm, rm, None, bytes, at);
    }
    match bytes.split_first() {
        None => Err(short(
            at,
            1 + (displacement_bytes(mode, 0) + row_size(prefixes, row)),
        )),
        Some((sib, rest)) => read_address(
            prefixes,
            row,
            code,
            modrm,
            *sib % 8,
            index_of(*sib),
            rest,
            at + 1,
        ),
    }
}

/// Reads on where the displacement of an address stands.
fn read_address(
    prefixes: Prefixes,
    row: Row,
    code: u8,
    modrm: u8,
    base: u8,
    index: Option<(u8, u8)>,
    bytes: &[u8],
    at: u8,
) -> Result<(Instr, u8), DecodeFault>
    requires small { row_number_size prefixes row ≤ 4 }
    requires few { at + length bytes.now ≤ 15 }
    ensures { Reads (matched (address_then (mod_of modrm) base index (λ place. ending prefixes row code modrm place))) bytes.now at result }
{
    let mode = modrm / 64;
    let size = displacement_bytes(mode, base);
    match bytes.split_at_checked(usize::from(size)) {
        None => Err(short(at, size + row_size(prefixes, row))),
        Some((front, rest)) => {
            let place = address(mode, base, index, number(front));
            read_ending(
                prefixes,
                row,
                unnumbered(code, modrm, place),
                rest,
                at + size,
            )
        }
    }
}

/// Reads on where the number of an immediate, an offset or an absolute address stands.
fn read_ending(
    prefixes: Prefixes,
    row: Row,
    pieces: Pieces,
    bytes: &[u8],
    at: u8,
) -> Result<(Instr, u8), DecodeFault>
    requires small { row_number_size prefixes row ≤ 4 }
    requires few { at + length bytes.now ≤ 15 }
    ensures { Reads (matched (ending prefixes row pieces.code pieces.modrm pieces.place)) bytes.now at result }
{
    let size = row_size(prefixes, row);
    match bytes.split_at_checked(usize::from(size)) {
        None => Err(short(at, size)),
        Some((front, _)) => {
            let pieces = Pieces {
                number: number(front),
                ..pieces
            };
            Ok((instr(prefixes, row, pieces), at + size))
        }
    }
}
