// What imported functions do that a stub describes.
// It stands on stub_file, memory_map and x86_semantics.
// Its contract: `specs/StubDoes.antt` gives for a stub, a choice and a state the next state, or why there is none.
#![tactic(auto)]

mod laws;

pub use laws::{
    calls_enter_with_exit, calls_have_next_states, calls_leave_free, worked_calls_hold,
};
