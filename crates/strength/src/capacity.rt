// The capacity of a shear plane: the least of three terms.
ghost use Rattle.std.specs.Prelude.{◌≡◌, ◌*◌, ◌/◌, cond, ◌==◌};
ghost use Rattle.wide.specs.Natural.{value};
ghost use Rattle.strength.specs.Shear.{PlaneWithin};
ghost use Rattle.strength.specs.Leaves.{Portion};
ghost use Rattle.strength.specs.Working.{share_root_of, wedge_of, half_of};
ghost use Rattle.strength.specs.Figures.{CapacityThousandths, Capacity};

use crate::load::Load;
use crate::plane::Plane;
use crate::terms::Joined;
use crate::{moment, terms};

// The third term.
fn third(planes: u64, other: &Load, j: &Joined) -> u64
    requires { Portion (value j.now.cross1) (value j.now.whole) }
    ensures { result ≡ cond (planes == 1)
        (wedge_of (other.now.units * value other.now.bearing.num) (value other.now.bearing.den)
        (share_root_of (value j.now.cross1) (value j.now.whole)))
        (half_of (other.now.units * value other.now.bearing.num) (value other.now.bearing.den)) }
{
    if planes == 1 {
        let other_root = j.share_root(&j.cross1);
        other.wedge(other_root)
    } else {
        other.half()
    }
}

// The capacity in whole thousandths of a newton.
pub fn capacity_thousandths(p: Plane) -> u64
    requires { PlaneWithin p }
    ensures { CapacityThousandths p result }
{
    let k = 82 * (100 - p.diameter) * p.diameter;
    let m = moment::yield_moment(p.diameter, p.steel);
    let j = terms::join(p.member1, p.member2);
    let side = Load {
        units: k * p.member1.thickness,
        bearing: j.bearing1,
    };
    let other = Load {
        units: k * p.member2.thickness,
        bearing: j.bearing2,
    };
    let by_dowel = j.first_term(k, m);
    let side_root = j.share_root(&j.cross2);
    let by_side = side.wedge(side_root);
    let by_other = third(p.planes, &other, &j);
    by_dowel.min(by_side).min(by_other)
}

// Rounded down: a figure rounded to nearest could lie above the exact one.
pub fn whole_newtons(thousandths: u64) -> u64
    ensures { result ≡ thousandths / 1000 }
{
    thousandths / 1000
}

// The capacity in whole newtons.
pub fn capacity(p: Plane) -> u64
    requires { PlaneWithin p }
    ensures { Capacity p result }
{
    whole_newtons(capacity_thousandths(p))
}
