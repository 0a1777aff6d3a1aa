// The program `jakstab`: its words, its files and its streams, handed to the top call.
// It stands on jakstab_core and outside_io.
// Its contract: it ends with the number of the status that `jakstab` gives, or of want of memory for its words.
#![tactic(auto)]

ghost use Rattle.std.specs.Prelude.{◌≡◌};
ghost use Rattle.jakstab_core.specs.declared.status.Status.TheVariants.{Memory};

use jakstab_core::{OpenGate, Status, jakstab};
use outside_io::{FileShelf, Sink, StandardStream, StreamSink, write_all};
use std::process::ExitCode;
use std::{env, io};

fn main(rt: HostRuntime) -> ExitCode {
    let alloc = rt.alloc();
    let mut note = StreamSink::new(StandardStream::Error(rt.stderr()));
    let words = match words(&rt) {
        Ok(words) => words,
        Err(fault) if fault.kind() == io::ErrorKind::OutOfMemory => {
            return ExitCode::from(tell_memory(&mut note).number());
        }
        Err(_) => Vec::new(alloc),
    };
    let mut shelf = FileShelf::new(&rt);
    let mut out = StreamSink::new(StandardStream::Output(rt.stdout()));
    let status = jakstab(
        &rt, alloc, &words, &mut shelf, &mut out, &mut note, &OpenGate,
    );
    ExitCode::from(status.number())
}

// The words after the program's name. Where some are no text there are none.
fn words(rt: &HostRuntime) -> io::Result<Vec<String>> {
    let mut words = Vec::new(rt.alloc());
    for word in env::args(rt)?.skip(1) {
        words.push(word)?;
    }
    Ok(words)
}

// Tells that memory is wanting; takes none.
fn tell_memory<K: Sink>(note: &mut K) -> Status
    ensures { result ≡ Memory }
{
    let _ = write_all(note, Status::Memory.line().as_bytes());
    Status::Memory
}
