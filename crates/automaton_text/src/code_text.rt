ghost use Rattle.std.specs.Prelude.{◌≡◌};
ghost use Rattle.automaton_text.specs.Reading.{is_code};

use x86_decoder::decode;
use x86_syntax::write_instr;

/// The most bytes that an instruction has.
const LONGEST_CODE: usize = 15;

/// Whether bytes are those of one instruction, and this is its text at an address.
pub fn is_code(from: u32, bytes: &[u8], text: &[u8]) -> bool
    ensures { result ≡ is_code from bytes.now text.now }
{
    if bytes.len() > LONGEST_CODE {
        return false;
    }
    let Ok((i, len)) = decode(bytes) else {
        return false;
    };
    if usize::from(len) != bytes.len() {
        return false;
    }
    write_instr(from, &i, len).as_bytes() == text
}
