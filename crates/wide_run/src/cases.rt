// The fields of a case, little-endian.
ghost use Rattle.std.specs.Prelude.{◌≡◌, ◌+◌, ◌≤◌, length};
ghost use Rattle.wide_run.specs.Fields.{u64_at};

use std::array;

// A number of limbs, 0 to 16.
pub fn count(x: u8) -> usize
    ensures { result ≤ 16 }
{
    (x % 17) as usize
}

// A record has no 64-bit number, so `numbers` reads none.
pub fn u64_at(s: &[u8], at: usize) -> u64
    requires { at + 8 ≤ length s.now }
    ensures { result ≡ u64_at s.now at }
{
    u64::from_le_bytes(array::from_fn(|i| s[at + i]))
}

// Sixteen limbs.
pub fn limbs_at(s: &[u8], at: usize) -> [u32; 16]
    requires { at + 64 ≤ length s.now }
    ensures { 16 ≡ length result }
{
    array::from_fn(|i| numbers::u32_at(s, at + 4 * i))
}
