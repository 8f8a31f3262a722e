// Numbers in bytes, lowest byte first (document 01, run file). A byte past the end is 0.
ghost use Rattle.std.specs.Prelude.{◌≡◌, ◌≤◌, ◌<◌};
ghost use Rattle.lists.specs.Prelude.{get_or};
ghost use Rattle.run_file.specs.Bytes.{little_endian};

fn byte(bytes: &[u8], i: usize) -> u64
    ensures { (result ≡ get_or bytes.now i 0) × (result < 256) }
{
    u64::from(bytes.get(i).copied().unwrap_or(0))
}

// The number of `count` bytes from place i on.
pub(crate) fn word(bytes: &[u8], i: usize, count: usize) -> u64
    requires { (i ≤ 65536) × (count ≤ 8) }
    ensures { result ≡ little_endian count i bytes.now }
{
    let mut n = 0u64;
    for k in 0..count {
        n = byte(bytes, i + (count - 1 - k)) + 256 * n;
    }
    n
}
