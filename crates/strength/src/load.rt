// A member's bearing force K = f d t, and the terms that it bounds, in whole thousandths of a newton.
ghost use Rattle.std.specs.Prelude.{◌≡◌, ◌*◌, ◌≤◌};
ghost use Rattle.wide.specs.Natural.{value};
ghost use Rattle.strength.specs.Leaves.{ForceWithin};
ghost use Rattle.strength.specs.Working.{wedge_of, half_of};

use crate::terms::Bearing;

// 2^30: the unit of the root of s² and c².
const UNIT: u64 = 1073741824;

// 1000 f d t = units num/den, with the bearing num/den.
#[derive(Clone, Copy)]
pub struct Load {
    pub units: u64,
    pub bearing: Bearing,
    ghost within: { ForceWithin units (value bearing.num) (value bearing.den) },
}

impl Load {
    // The second term, and the third for one shear plane, with root that of s² or c².
    pub fn wedge(&self, root: u64) -> u64
        requires { root ≤ 1073741824 }
        ensures { result ≡ wedge_of (self.now.units * value self.now.bearing.num) (value self.now.bearing.den) root }
    {
        let mut a: [u32; 5] = wide::times_u64(&self.bearing.num, self.units * root);
        let b: [u32; 4] = wide::times_u64(&self.bearing.den, UNIT + root);
        wide::quotient(&mut a, &b)
    }

    // The third term for two shear planes.
    pub fn half(&self) -> u64
        ensures { result ≡ half_of (self.now.units * value self.now.bearing.num) (value self.now.bearing.den) }
    {
        let mut a: [u32; 4] = wide::times_u64(&self.bearing.num, self.units);
        let b: [u32; 3] = wide::times_u64(&self.bearing.den, 2);
        wide::quotient(&mut a, &b)
    }
}
