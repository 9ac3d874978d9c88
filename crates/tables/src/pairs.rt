// How a table in bytes is laid out: one pair in a firm's own (02, A4), two in one that two firms share (A6).
ghost use Rattle.std.specs.Prelude.{◌≡◌, ◌+◌, ◌*◌, ◌≤◌, length, not};
ghost use Rattle.chain.specs.Chain.{offset_of, length_of};
ghost use Rattle.chain.specs.declared.Width.TheVariants.{Two};
ghost use Rattle.tables.specs.Pairs.{first_pair, all_whole, refusal14, stretch_of};

use crate::entry::ENTRY_BYTES;
use chain::Width;
use numbers::u16_at;

// How many pairs a firm's own table has, and how many one that firms share: no table has more.
pub(crate) const OWN_PAIRS: usize = 1;

pub(crate) const SHARED_PAIRS: usize = 2;

// Where the number of pairs stands and where the first pair does, and how many bytes a pair has.
const COUNT_AT: usize = 0;

const FIRST_PAIR: usize = 2;

const PAIR_BYTES: usize = 4;

// Where a pair's length stands in it, after the offset.
const LENGTH_IN_PAIR: usize = 2;

// Whether each pair's length is one of whole entries.
#[tactic(auto, using(crate::proofs::Stretches::none, crate::proofs::Stretches::one_more))]
fn are_whole(table: &[u8], pairs: usize) -> bool
    requires { 2 + pairs * 4 ≤ length table.now }
    ensures { result ≡ all_whole table.now pairs }
{
    let mut whole = true;
    for k in 0..pairs {
        let bytes = u16_at(table, FIRST_PAIR + k * PAIR_BYTES + LENGTH_IN_PAIR) as usize;
        whole = whole & bytes.is_multiple_of(ENTRY_BYTES);
    }
    whole
}

// Whether the pairs lay stretches of whole entries up to the table's end.
#[tactic(auto, unfolding(crate::specs::Pairs::refusal14))]
pub(crate) fn are_laid(table: &[u8], pairs: usize) -> bool
    requires { pairs ≤ 2 }
    ensures { result ≡ not (refusal14 pairs table.now) }
{
    let front = FIRST_PAIR + pairs * PAIR_BYTES;
    if table.len() < front {
        return false;
    }
    if u16_at(table, COUNT_AT) as usize != pairs {
        return false;
    }
    let mut bounds = [0usize; SHARED_PAIRS + 1];
    if !chain::read(table, Width::Two, FIRST_PAIR, front, pairs, &mut bounds) {
        return false;
    }
    are_whole(table, pairs)
}

// The stretch that pair k names.
#[tactic(auto, unfolding(chain::specs::Chain::number_at))]
pub(crate) fn stretch_of(table: &[u8], k: usize) -> &[u8]
    requires pair { 2 + k * 4 + 4 ≤ length table.now }
    requires inside { offset_of Two table.now first_pair k + length_of Two table.now first_pair k ≤ length table.now }
    ensures { result.now ≡ stretch_of k table.now }
{
    let pair = FIRST_PAIR + k * PAIR_BYTES;
    let offset = u16_at(table, pair) as usize;
    let bytes = u16_at(table, pair + LENGTH_IN_PAIR) as usize;
    &table[offset..offset + bytes]
}
