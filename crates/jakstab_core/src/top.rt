ghost use Rattle.std.specs.Prelude.{map, string_bytes};
ghost use Rattle.jakstab_core.specs.Due.{IsDelivered};
ghost use Rattle.jakstab_core.specs.Says.{Answers};

use crate::Status;
use crate::due::due_output;
use crate::work::Output;
use flow_worklist::Gate;
use outside_io::{Shelf, Sink, write_all};
use std::alloc::Global;
use std::thread::Threads;

/// Does the command that the words name, and tells on `note` how it ended. A refusal writes nothing to `out`. Rows of an exploration are expanded by
/// several threads, which pass the gate; that changes no answer.
pub fn jakstab<R: Threads + Sync, S: Shelf, K: Sink, G: Gate>(
    rt: &R,
    alloc: Global,
    words: &[String],
    shelf: &mut S,
    out: &mut K,
    note: &mut K,
    gate: &G,
) -> Status
    ensures { Answers result (record { words = map string_bytes words.now; shelf = record { held = S.contents shelf.old; faults_before = S.faults shelf.old; faults_after = S.faults shelf.new } }) (record { before = K.written out.old; after = K.written out.new; faults_before = K.faults out.old; faults_after = K.faults out.new }) (record { before = K.written note.old; after = K.written note.new; faults_before = K.faults note.old; faults_after = K.faults note.new }) }
{
    let status = deliver(due_output(rt, alloc, words, shelf, gate), out);
    let _ = write_all(note, status.line().as_bytes());
    status
}

// Writes the text that is due, or hands on the refusal.
fn deliver<K: Sink>(due: Result<Output, Status>, out: &mut K) -> Status
    ensures { IsDelivered due result (record { before = K.written out.old; after = K.written out.new; faults_before = K.faults out.old; faults_after = K.faults out.new }) }
{
    match due {
        Ok(output) => match write_all(out, &output.text) {
            Ok(()) => {
                if output.is_no {
                    Status::VerdictNo
                } else {
                    Status::Done
                }
            }
            Err(_) => Status::WriteFault,
        },
        Err(refusal) => refusal,
    }
}
