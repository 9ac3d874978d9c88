// The bearings of both members, what is made of them, and the first of the three terms whose least is the capacity of a shear plane,
// in whole thousandths of a newton.
ghost use Rattle.std.specs.Prelude.{◌≡◌, ◌+◌, ◌*◌, ◌≤◌};
ghost use Rattle.wide.specs.Natural.{value};
ghost use Rattle.strength.specs.Shear.{MemberWithin};
ghost use Rattle.strength.specs.Leaves.{BearingWithin, BearingOf, JoinedFrom, JoinedOf, Bits, Portion, FirstWithin};
ghost use Rattle.strength.specs.Working.{first_of, share_root_of};

use crate::plane::Timber;
use crate::roots;

// 2^60: the square of the unit of the root of s² and c².
const UNIT_SQUARED: u64 = 1152921504606846976;

// A bearing strength f = 82 (100 - d)/100 num/den, in arrays that hold as many limbs as it needs: the library has no heap for a Vec.
#[derive(Clone, Copy)]
pub struct Bearing {
    pub num: [u32; 3],
    pub den: [u32; 3],
}

// The bearing of a member, with cos²α = along/total.
pub fn bearing_of(m: Timber) -> Bearing
    requires { BearingWithin m.density m.k90 m.along m.total }
    ensures { BearingOf m.density m.k90 m.along m.total result }
{
    let num = wide::times_u64(&wide::from_u64(m.total), m.density);
    let mut den = wide::times_u64(&wide::from_u64(m.total - m.along), m.k90);
    wide::multiply_add_u64(&mut den, &wide::from_u64(m.along), 1000);
    Bearing { num, den }
}

// a + b.
pub fn sum(a: &[u32; 5], b: &[u32; 5]) -> [u32; 5]
    requires { Bits 146 (value a.now) (value b.now) }
    ensures { value result ≡ value a.now + value b.now }
{
    let mut r = *a;
    wide::add_to(&mut r, b);
    r
}

// The bearings num1/den1 and num2/den2 of both members and what is made of them: cross1 = num1 den2, cross2 = num2 den1, whole
// their sum, so that s² = cross2/whole and c² = cross1/whole; nums = num1 num2.
#[derive(Clone, Copy)]
pub struct Joined {
    pub bearing1: Bearing,
    pub bearing2: Bearing,
    pub cross1: [u32; 5],
    pub cross2: [u32; 5],
    pub whole: [u32; 5],
    pub nums: [u32; 5],
}

// What is made of two bearings, each worked out once.
fn crosswise(bearing1: Bearing, bearing2: Bearing) -> Joined
    requires { Bits 73 (value bearing1.num) (value bearing1.den) × Bits 73 (value bearing2.num) (value bearing2.den) }
    ensures { JoinedFrom (value bearing1.num) (value bearing1.den) (value bearing2.num) (value bearing2.den) result }
{
    let cross1 = wide::product(&bearing1.num, &bearing2.den);
    let cross2 = wide::product(&bearing2.num, &bearing1.den);
    Joined {
        bearing1,
        bearing2,
        cross1,
        cross2,
        whole: sum(&cross1, &cross2),
        nums: wide::product(&bearing1.num, &bearing2.num),
    }
}

// The bearings of members 1 and 2, each with its own angle, and what is made of them.
pub fn join(member1: Timber, member2: Timber) -> Joined
    requires { MemberWithin member1 × MemberWithin member2 }
    ensures { JoinedOf member1 member2 result }
{
    crosswise(bearing_of(member1), bearing_of(member2))
}

impl Joined {
    // The whole root of 2^60 part/whole.
    pub fn share_root(&self, part: &[u32; 5]) -> u64
        requires { Portion (value part.now) (value self.now.whole) }
        ensures { result ≡ share_root_of (value part.now) (value self.now.whole) }
    {
        let mut scaled: [u32; 7] = wide::times_u64(part, UNIT_SQUARED);
        roots::whole_square_root(wide::quotient(&mut scaled, &self.whole))
    }

    // The first term, with k the dowel's factor, m the yield moment.
    pub fn first_term(&self, k: u64, m: u64) -> u64
        requires { FirstWithin k m (value self.now.nums) (value self.now.whole) }
        ensures { result ≡ first_of k m (value self.now.nums) (value self.now.whole) }
    {
        let mut a: [u32; 7] = wide::times_u64(&self.nums, 529 * k * m);
        let b: [u32; 5] = wide::times_u64(&self.whole, 10);
        roots::whole_square_root(wide::quotient(&mut a, &b))
    }
}
