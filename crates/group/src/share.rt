// The share of a row and of a member, in ten-thousandths, rounded down (01, 'Rows, share and use'; 02, A3).
ghost use Rattle.std.specs.Prelude.{◌≡◌, ◌*◌, ◌^◌, ◌<◌, ◌≤◌, leb, length};
ghost use Rattle.wide.specs.Natural.{value};
ghost use Rattle.strength.specs.Roots.{FactorWithin};
ghost use Rattle.group.specs.Rows.{RowsGiven};
ghost use Rattle.group.specs.Listing.{listed};
ghost use Rattle.group.specs.Share.{
  farthest,
  units,
  RowHolds,
  greatest_to,
  row_passes,
  Decides,
  same_start,
  WorstOf,
  MemberShared,
};

use crate::order::{self, Hole};
use crate::rows::{self, Row};
use strength::roots;

// Ten-thousandths of the whole.
const WHOLE: u64 = 10000;

// 13 d in tenths of a millimetre, for each millimetre of d (EN 1995-1-1 (8.34)).
const REFERENCE: u64 = 130;

// 10,000 to the power of 20.
const UNITS: [u32; 9] = [
    0, 0, 3468754944, 1671571300, 4020508874, 3453057829, 1809837936, 2649374239, 863,
];

// number² length^5.
fn product(number: u64, length: u64) -> [u32; 4]
    requires { (number ≤ 64) × (length ≤ farthest) }
    ensures { value result ≡ number * number * length ^ 5 }
{
    let square = length * length;
    wide::product_u64(number * number * square, square * length)
}

// 10,000^20 a1^5.
fn scaled(a1: u64) -> [u32; 12]
    requires { a1 ≤ farthest }
    ensures { value result ≡ units * a1 ^ 5 }
{
    let power = product(1, a1);
    wide::product(&UNITS, &power)
}

// Whether e^20 q is at most n.
fn passes(e: u64, q: &[u32], n: &[u32]) -> bool
    requires { (e ≤ 10000) × FactorWithin (value q.now) }
    ensures { result ≡ leb ((e ^ 4) ^ 5 * value q.now) (value n.now) }
{
    let square = e * e;
    roots::fifth_power_at_most(square * square, q, n)
}

// The greatest share that a row passes.
fn row_share(d: u64, row: Row) -> u64
    requires { (d ≤ 30) × RowHolds row }
    ensures { result ≡ greatest_to (row_passes d row.number row.least) 10000 }
{
    let q = product(row.number, REFERENCE * d);
    let n = scaled(row.least);
    let passed = |e: u64|
        requires { (e ≤ 10000) × FactorWithin (value q) }
        ensures { result ≡ leb ((e ^ 4) ^ 5 * value q) (value n) }
    { passes(e, &q, &n) };
    if passed(WHOLE) {
        return WHOLE;
    }
    roots::greatest_between(0, WHOLE, &passed)
}

// Of two rows the one that passes fewer shares: the greater number² / least^5. A row no longer and no closer needs no powers.
fn deciding(worst: Row, row: Row) -> Row
    requires { (1 ≤ worst.number) × RowHolds worst × RowHolds row }
    ensures { Decides worst row result }
{
    if row.number <= worst.number && worst.least <= row.least {
        return worst;
    }
    let there = product(row.number, worst.least);
    let here = product(worst.number, row.least);
    if wide::at_most(&there, &here) {
        return worst;
    }
    row
}

// Whether a window starts where the one before it did: by its place, since two places are looked at.
fn same_start(starts: &[i32], i: usize) -> bool
    requires { i < length starts.now }
    ensures { result ≡ same_start starts.now i }
{
    i > 0 && starts[i - 1] == starts[i]
}

// Of the windows from each of `starts` upwards the one that passes the fewest shares.
fn worst_window(holes: &[Hole], starts: &[i32], reach: u64) -> Row
    requires { length holes.now ≤ 64 }
    ensures { let l = listed holes.now in WorstOf reach l.along l.across (length holes.now) starts.now (length starts.now) result }
{
    let mut worst = Row {
        number: 1,
        least: rows::FARTHEST,
    };
    for i in 0..starts.len() {
        if !same_start(starts, i) {
            worst = deciding(worst, rows::window_from(holes, starts[i], reach));
        }
    }
    worst
}

// The share of a member, with the dowels' coordinates along and across its grain, two arrays by value as document 01 names them; a row reaches
// less than `reach` across.
pub fn member_share(d: u64, reach: u64, a: [i32; 64], b: [i32; 64], count: usize) -> u64
    requires { RowsGiven d reach count }
    ensures { MemberShared d reach a b count result }
{
    let holes = order::in_order(&a, &b, count);
    row_share(d, worst_window(&holes[..count], &b[..count], reach))
}
