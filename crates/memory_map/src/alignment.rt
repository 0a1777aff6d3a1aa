ghost use Rattle.std.specs.Prelude.{◌≡◌, nat_eq};
ghost use Rattle.std.specs.List.{list_any};
ghost use Rattle.memory_map.specs.Alignment.{is_alignment};

// The powers of two from 4 to 4,096.
const ALIGNMENTS: [u64; 11] = [4, 8, 16, 32, 64, 128, 256, 512, 1024, 2048, 4096];

/// Whether a stack pointer may have this alignment at the start: a power of two from 4 to 4,096.
pub fn is_alignment(n: u64) -> bool
    ensures { result ≡ is_alignment n }
{
    is_among(&ALIGNMENTS, n)
}

fn is_among(list: &[u64], n: u64) -> bool
    ensures { result ≡ list_any (nat_eq n) list.now }
{
    list.iter().any(|a| n == *a)
}
