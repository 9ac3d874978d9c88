// What the use takes of the members, by their views.
ghost use Rattle.std.specs.Prelude.{◌≤◌};
ghost use Rattle.group.specs.Share.{TakenFrom, BothTaken};

use crate::share;
use spacing::view::{Piece, Plan, Which};

// Tenths of a millimetre in one.
const TENTHS: u64 = 10;

// The size of the force along a member's grain, in N, and the share of its rows, in ten-thousandths.
#[derive(Clone, Copy)]
pub struct Taken {
    pub along: u64,
    pub share: u64,
}

// Both members, and the lesser of their shares: the row share.
#[derive(Clone, Copy)]
pub struct Both {
    pub member1: Taken,
    pub member2: Taken,
    pub share: u64,
}

// What it asks of the plan is no ghost field of `Plan`: that would ask more of callers of `spacing`, which take a diameter below 6, and no
// dowel.
fn one_taken(which: Which, m: Piece, plan: Plan) -> Taken
    requires { (6 ≤ plan.diameter) × (1 ≤ plan.count) }
    ensures { TakenFrom m plan.diameter plan.fx plan.fy plan.x plan.y plan.count result }
{
    let d = plan.diameter;
    let view = plan.view(which, m);
    Taken {
        along: view.frame.force.unsigned_abs() as u64,
        share: share::member_share(d, TENTHS * d, view.along, view.across, plan.count),
    }
}

// Of both members: where the grains agree they have the same rows and the same force along, and one root is taken.
pub fn both_taken(member1: Piece, member2: Piece, plan: Plan) -> Both
    requires { (6 ≤ plan.diameter) × (1 ≤ plan.count) }
    ensures { BothTaken member1 member2 plan.diameter plan.fx plan.fy plan.x plan.y plan.count result }
{
    let first = one_taken(Which::Member1, member1, plan);
    if member1.grain == member2.grain {
        return Both {
            member1: first,
            member2: first,
            share: first.share,
        };
    }
    let second = one_taken(Which::Member2, member2, plan);
    Both {
        member1: first,
        member2: second,
        share: first.share.min(second.share),
    }
}
