// A record's values, part by part.
ghost use Rattle.std.specs.Prelude.{◌≡◌, ◌+◌, ◌*◌, ◌≤◌, length, replicate, pos};
ghost use Rattle.numbers.specs.Numbers.{u8_at};
ghost use Rattle.joint.specs.Layout.{member_at, members_in, dowel_in, column, positions_in, loads_in, values_of};
ghost use Rattle.joint.specs.Refusal.{zero_positions};
ghost use Rattle.joint.specs.Stage.{LaidOut, eighths};

use crate::layout::{Parts, stretch};
use crate::places::{FIRST_X, FIRST_Y, MEMBER_1, MEMBER_2, POSITION_BYTES, VERSION_AT};
use crate::{Dowel, Loads, MOST_DOWELS, Member, Members, Outline, Positions, Values};
use numbers::{i32_at, u16_at};

// Class, grain, thickness, then x0, y0, x1 and y1.
#[tactic(auto, using(crate::proofs::Tests::from_bits), unfolding(crate::specs::Layout::member_at))]
fn member_at(part: &[u8], i: usize) -> Member
    requires { i + 20 ≤ length part.now }
    ensures { result ≡ member_at part.now i }
{
    Member {
        class: part[i],
        grain: part[i + 1],
        thickness: u16_at(part, i + 2),
        outline: Outline {
            x0: i32_at(part, i + 4),
            y0: i32_at(part, i + 8),
            x1: i32_at(part, i + 12),
            y1: i32_at(part, i + 16),
        },
    }
}

// Kind, shear planes, then both members.
#[tactic(auto, unfolding(crate::specs::Layout::members_in))]
fn members_in(part: &[u8]) -> Members
    requires { length part.now ≡ 42 }
    ensures { result ≡ members_in part.now }
{
    Members {
        planes: part[1],
        member1: member_at(part, MEMBER_1),
        member2: member_at(part, MEMBER_2),
    }
}

// Kind, diameter, steel.
#[tactic(auto, unfolding(crate::specs::Layout::dowel_in))]
fn dowel_in(part: &[u8]) -> Dowel
    requires { length part.now ≡ 3 }
    ensures { result ≡ dowel_in part.now }
{
    Dowel {
        diameter: part[1],
        steel: part[2],
    }
}

// Every eighth byte from `at` on starts a dowel's number. They go into places that are all 0: arrays handed back by value are copied twice more.
fn put_column(part: &[u8], at: usize, n: usize, l: &mut [i32; MOST_DOWELS])
    requires part { (at ≤ 6) × (2 + 8 * n ≤ length part.now) }
    requires zeros { l.old ≡ replicate 64 (pos 0) }
    ensures { l.new ≡ column (eighths part.now at) n }
{
    for i in 0..n.min(MOST_DOWELS) {
        l[i] = i32_at(part, at + POSITION_BYTES * i);
    }
}

// Kind, N, then x and y of each dowel.
#[tactic(auto, using(crate::proofs::Columns::x_column, crate::proofs::Columns::y_column), unfolding(crate::specs::Layout::positions_in))]
fn put_positions(part: &[u8], positions: &mut Positions)
    requires part { length part.now ≡ 2 + 8 * u8_at part.now 1 }
    requires zeros { positions.old ≡ zero_positions }
    ensures { positions.new ≡ positions_in part.now }
{
    let n = part[1] as usize;
    positions.n = n;
    put_column(part, FIRST_X, n, &mut positions.x);
    put_column(part, FIRST_Y, n, &mut positions.y);
}

// Kind, service class, duration, then fx and fy.
#[tactic(auto, using(crate::proofs::Tests::from_bits), unfolding(crate::specs::Layout::loads_in))]
fn loads_in(part: &[u8]) -> Loads
    requires { length part.now ≡ 11 }
    ensures { result ≡ loads_in part.now }
{
    Loads {
        service_class: part[1],
        duration: part[2],
        fx: i32_at(part, 3),
        fy: i32_at(part, 7),
    }
}

#[tactic(auto, using(crate::proofs::Stages::values_read))]
pub(crate) fn put_values(bytes: &[u8], parts: Parts, values: &mut Values)
    requires laid { LaidOut bytes.now parts }
    requires zeros { values.old.positions ≡ zero_positions }
    ensures { values.new ≡ values_of bytes.now }
{
    values.version = u16_at(bytes, VERSION_AT);
    values.members = members_in(stretch(bytes, parts.members));
    values.dowel = dowel_in(stretch(bytes, parts.dowel));
    put_positions(stretch(bytes, parts.positions), &mut values.positions);
    values.loads = loads_in(stretch(bytes, parts.loads));
}
