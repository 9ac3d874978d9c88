// Rows of dowels in a member, as windows across it (01, 'Rows, share and use'; 02, A3).
ghost use Rattle.std.specs.Prelude.{◌≡◌, ◌<◌, ◌≤◌, length};
ghost use Rattle.group.specs.Listing.{listed};
ghost use Rattle.group.specs.Share.{within_reach, longer, window_seen};

use crate::order::Hole;

// In tenths: at this distance a row passes every share, so a greater one need not be told apart from it.
pub const FARTHEST: u64 = 200000;

// More than any two places lie apart.
const BEYOND: u64 = 4294967296;

// A row, or a part of one: its number of dowels, and the least distance along between two of them, FARTHEST at most.
#[derive(Clone, Copy)]
pub struct Row {
    pub number: u64,
    pub least: u64,
}

// Whether a place is not below another and within reach of it. Where it is below, the distance upwards wraps and lies beyond every reach, so that one
// comparison does: of two, that of what is below would fall by chance in an order by chance, and no processor foresees it.
fn within_reach(from: i32, to: i32, reach: u64) -> bool
    ensures { result ≡ within_reach from to reach }
{
    let upwards = (to as i64).wrapping_sub(from as i64).cast_unsigned();
    upwards < reach.min(BEYOND)
}

// A row with one dowel more, and where the last dowel of it lies.
fn longer(row: Row, last: Option<i32>, at: i32) -> Row
    requires { row.number < 64 }
    ensures { result ≡ longer row last at }
{
    let least = match last {
        None => row.least,
        Some(before) => row.least.min(at.abs_diff(before) as u64),
    };
    Row {
        number: row.number + 1,
        least,
    }
}

// The dowels not below a place across and within reach of it, in one pass over dowels in their order along.
pub fn window_from(holes: &[Hole], from: i32, reach: u64) -> Row
    requires { length holes.now ≤ 64 }
    ensures { let l = listed holes.now in result ≡ window_seen l.along l.across (length holes.now) reach from }
{
    let mut row = Row {
        number: 0,
        least: FARTHEST,
    };
    let mut last = None;
    for hole in holes {
        let Hole { along, across } = *hole;
        if within_reach(from, across, reach) {
            row = longer(row, last, along);
            last = Some(along);
        }
    }
    row
}
