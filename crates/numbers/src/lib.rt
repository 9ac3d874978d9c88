// Numbers of a record: at their byte, and within their limits.
#![tactic(auto)]

ghost use Rattle.std.specs.Prelude.{◌≡◌, ◌+◌, ◌≤◌, length};
ghost use Rattle.std.proofs.lemmas.List.Edits.{sets};
ghost use Rattle.numbers.specs.Numbers.{u16_at, u32_at, i32_at, u16_bytes, u32_bytes, i32_bytes, coordinate, force};

// One function for each type: a trait would hold the same calls of std, and a ghost member for each. That a slice has room for a number at a
// place is asked of each anew: it is a fact of slice and place, and no value carries both.
pub fn u16_at(s: &[u8], i: usize) -> u16
    requires { i + 2 ≤ length s.now }
    ensures { result ≡ u16_at s.now i }
{
    u16::from_le_bytes([s[i], s[i + 1]])
}

pub fn u32_at(s: &[u8], i: usize) -> u32
    requires { i + 4 ≤ length s.now }
    ensures { result ≡ u32_at s.now i }
{
    u32::from_le_bytes([s[i], s[i + 1], s[i + 2], s[i + 3]])
}

#[tactic(auto, unfolding(crate::specs::Numbers::i32_at), using(crate::proofs::Complement::signed))]
pub fn i32_at(s: &[u8], i: usize) -> i32
    requires { i + 4 ≤ length s.now }
    ensures { result ≡ i32_at s.now i }
{
    u32_at(s, i).cast_signed()
}

// And one for each type that is put: each is a call or two of std, and a trait would say as much again.
pub fn put_u16(s: &mut [u8], i: usize, n: u16)
    requires { i + 2 ≤ length s.old }
    ensures { s.new ≡ sets s.old i (u16_bytes n) }
{
    s[i..i + 2].copy_from_slice(&n.to_le_bytes());
}

fn put_u32(s: &mut [u8], i: usize, n: u32)
    requires { i + 4 ≤ length s.old }
    ensures { s.new ≡ sets s.old i (u32_bytes n) }
{
    s[i..i + 4].copy_from_slice(&n.to_le_bytes());
}

#[tactic(auto, using(crate::proofs::Complement::bits))]
pub fn put_i32(s: &mut [u8], i: usize, z: i32)
    requires { i + 4 ≤ length s.old }
    ensures { s.new ≡ sets s.old i (i32_bytes z) }
{
    put_u32(s, i, z.cast_unsigned());
}

// The two limits have a name each, as the definitions have: refusal 7 is read by these names.
#[tactic(auto, unfolding(crate::specs::Numbers::coordinate))]
pub fn is_coordinate(z: i32) -> bool
    ensures { result ≡ coordinate z }
{
    (-100000..=100000).contains(&z)
}

#[tactic(auto, unfolding(crate::specs::Numbers::force))]
pub fn is_force(z: i32) -> bool
    ensures { result ≡ force z }
{
    (-1000000..=1000000).contains(&z)
}
