ghost use Rattle.std.specs.Prelude.{◌≡◌};
ghost use Rattle.x86_syntax.specs.Spelling.{is_prefix, with_prefix, with_group, with_segment, grouped, segmented};

use x86_syntax::{Group, Prefixes};

/// Whether the byte is one of the four prefix groups.
#[tactic(auto, unfolding(x86_syntax::specs::Spelling::is_prefix))]
pub fn is_prefix_byte(b: u8) -> bool
    ensures { result ≡ is_prefix b }
{
    matches!(
        b,
        0xF0 | 0xF2 | 0xF3 | 0x2E | 0x36 | 0x3E | 0x26 | 0x64 | 0x65 | 0x66 | 0x67
    )
}

/// The prefixes with one more of those bytes, where that is listed.
#[tactic(auto, unfolding(x86_syntax::specs::Spelling::with_prefix))]
pub fn add_prefix(prefixes: Prefixes, b: u8) -> Option<Prefixes>
    ensures { result ≡ with_prefix prefixes b }
{
    if b == 0x66 {
        return Some(Prefixes {
            size: true,
            ..prefixes
        });
    }
    if b == 0xF0 {
        return add_group(prefixes, Group::Lock);
    }
    if b == 0xF2 {
        return add_group(prefixes, Group::Repne);
    }
    if b == 0xF3 {
        return add_group(prefixes, Group::Rep);
    }
    if b == 0x67 {
        return None;
    }
    add_segment(prefixes, b)
}

fn add_group(prefixes: Prefixes, new: Group) -> Option<Prefixes>
    ensures { result ≡ grouped prefixes new }
{
    match (prefixes.group, new) {
        (Group::Empty, _)
        | (Group::Lock, Group::Lock)
        | (Group::Repne, Group::Repne)
        | (Group::Rep, Group::Rep) => Some(Prefixes {
            group: new,
            ..prefixes
        }),
        _ => None,
    }
}

fn add_segment(prefixes: Prefixes, b: u8) -> Option<Prefixes>
    ensures { result ≡ segmented prefixes b }
{
    match prefixes.segment {
        None => Some(Prefixes {
            segment: Some(b),
            ..prefixes
        }),
        Some(old) => { if old == b { Some(prefixes) } else { None } }
    }
}
