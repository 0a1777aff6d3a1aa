ghost use Rattle.std.specs.Prelude.{◌≡◌};
ghost use Rattle.automaton_text.specs.Reading.{cause_of};
ghost use Rattle.automaton_text.specs.Text.{cause_text};

use flow_log::Cause;

const CAUSES: [Cause; 8] = [
    Cause::Bytes,
    Cause::NoStub,
    Cause::Target,
    Cause::Store,
    Cause::Stack,
    Cause::Block,
    Cause::Code,
    Cause::Budget,
];

/// The word of a cause.
pub fn cause_text(cause: Cause) -> &'static [u8]
    ensures { result.now ≡ cause_text cause }
{
    match cause {
        Cause::Bytes => b"bytes",
        Cause::NoStub => b"nostub",
        Cause::Target => b"target",
        Cause::Store => b"store",
        Cause::Stack => b"stack",
        Cause::Block => b"block",
        Cause::Code => b"code",
        Cause::Budget => b"budget",
    }
}

/// The cause of this word.
pub fn cause_of(field: &[u8]) -> Option<Cause>
    ensures { result ≡ cause_of field.now }
{
    CAUSES
        .iter()
        .copied()
        .find(|cause| cause_text(*cause) == field)
}
