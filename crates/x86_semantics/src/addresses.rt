ghost use Rattle.std.specs.Prelude.{◌≡◌};
ghost use Rattle.x86_syntax.specs.Text.{next_address};
ghost use Rattle.x86_semantics.specs.Operands.{branch_target};

/// The address after an instruction of `len` bytes at an address; after 2^32 - 1 comes 0.
pub fn next_address(at: u32, len: u8) -> u32
    ensures { result ≡ next_address at len }
{
    at.wrapping_add(u32::from(len))
}

/// Where a branch of `len` bytes at an address goes: its offset counts from the address after it.
pub fn branch_target(at: u32, len: u8, offset: i32) -> u32
    ensures { result ≡ branch_target at len offset }
{
    let sum = u64::from(at) + u64::from(len) + u64::from(offset.cast_unsigned());
    (sum % 0x1_0000_0000) as u32
}
