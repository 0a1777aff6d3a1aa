// Instructions of 32-bit x86: their types, the opcode table with the byte strings that it lists, and their text.
// It stands on bit_words and text_fields.
// Its contract: the definition of a spelling, of which at most one begins a string of bytes, and `write_instr`, the text.
#![tactic(auto)]

mod instr;
mod prefixes;
mod table;
mod text;

pub use instr::{Address, Cond, Instr, Mnemonic, Operand, Place, Repeat, Seg};
pub use prefixes::{Group, Prefixes};
pub use table::{Form, Forms, Map, Name, ROWS, Repeats, Row, find_opcode, find_row};
pub use text::write_instr;
