ghost use Rattle.std.specs.Prelude.{◌≡◌, ◌+◌, ◌*◌, ◌++◌, length, OnOk};
ghost use Rattle.demo_images.specs.LittleEndian.{halves, words};

use bit_words::NoMemory;

/// Appends two bytes for each number, the lower one first.
#[tactic(auto, unfolding(crate::specs::LittleEndian::halves))]
pub fn push_halves(out: &mut Vec<u8>, list: &[u16]) -> Result<(), NoMemory>
    ensures bytes { OnOk result (out.new.items ≡ out.old.items ++ halves list.now) }
{
    for n in list {
        out.extend_from_slice(&n.to_le_bytes())?;
    }
    Ok(())
}

/// Appends four bytes for each number, the lowest one first.
#[tactic(auto, unfolding(crate::specs::LittleEndian::words))]
pub fn push_words(out: &mut Vec<u8>, list: &[u32]) -> Result<(), NoMemory>
    ensures bytes { OnOk result (out.new.items ≡ out.old.items ++ words list.now) }
    ensures len { OnOk result (length out.new.items ≡ length out.old.items + 4 * length list.now) }
{
    for n in list {
        out.extend_from_slice(&n.to_le_bytes())?;
    }
    Ok(())
}
