// The exploration over any domain: rows expanded in rounds, by several threads, into a log, and the automaton of a log.
// It stands on transfer_functions, x86_machine, automaton_text and flow_log.
// Its contract: `explore_in` gives exactly the log that is defined, however rows are divided among threads, and `automaton_of` exactly its automaton.
#![tactic(auto)]

mod automaton;
mod exploring;
mod gate;
mod laws;
mod log;
mod parting;
mod post;
mod reading;
mod rounds;
mod row_index;
mod site;
mod told;
mod visits;

pub use automaton::automaton_of;
pub use exploring::Limits;
pub use gate::{Gate, OpenGate};
pub use laws::{runs_are_followed, steps_are_sound};
pub use log::{Log, Row};
pub use post::{Post, expanded};
pub use reading::Reading;
pub use rounds::{PIECE, ROUND, explore, explore_in};
