// Pairs of offset and length that lay parts end to end: the record's (01, 'The record') and those of 02, A4, A6 and A14.
#![tactic(auto)]

ghost use Rattle.std.specs.Prelude.{◌≡◌, ◌+◌, ◌*◌, ◌≤◌, ◌<◌, length};
ghost use Rattle.chain.specs.Chain.{bytes_of, pair_bytes, number_at, continues, Read};

use numbers::{u16_at, u32_at};

// How many bytes each number of a pair has: a value that callers name and the definitions speak of, with methods.
#[derive(Clone, Copy)]
pub enum Width {
    Two,
    Four,
}

impl Width {
    fn bytes(self) -> usize
        ensures { result ≡ bytes_of self }
    {
        match self {
            Width::Two => 2,
            Width::Four => 4,
        }
    }

    #[tactic(auto, unfolding(crate::specs::Chain::number_at))]
    fn number_at(self, s: &[u8], i: usize) -> u32
        requires { i + bytes_of self ≤ length s.now }
        ensures { result ≡ number_at self s.now i }
    {
        match self {
            Width::Two => u16_at(s, i).into(),
            Width::Four => u32_at(s, i),
        }
    }
}

// Whether a pair's part starts where it has to and is not empty.
fn continues(offset: usize, bytes: usize, start: usize) -> bool
    ensures { result ≡ continues offset bytes start }
{
    (offset == start) & (bytes != 0)
}

// Whether `count` pairs, from byte `at` on, lay parts end to end from byte `first` to the end of `s`. Puts into `bounds` where each part
// starts, and after that where the last one ends, by the pairs as they stand.
// The list is lent and the answer a bool, since the bounds are promised of a broken chain too, and how many there are is the caller's: so
// `whole` runs along, and the loop goes on where a pair breaks off. No struct holds the rest: width, places and count are written once, as
// constants of each caller, and the bytes and the list are lent.
pub fn read(
    s: &[u8],
    width: Width,
    at: usize,
    first: usize,
    count: usize,
    bounds: &mut [usize],
) -> bool
    requires { (at + count * pair_bytes width ≤ length s.now) × (count < length bounds.old) }
    ensures { Read width s.now at first count bounds.old bounds.new result }
{
    let size = width.bytes();
    let mut whole = true;
    let mut start = first;
    for k in 0..count {
        let here = at + k * (2 * size);
        let offset = width.number_at(s, here) as usize;
        let bytes = width.number_at(s, here + size) as usize;
        whole = whole & continues(offset, bytes, start);
        bounds[k] = start;
        start = offset + bytes;
    }
    bounds[count] = start;
    whole & (start == s.len())
}
