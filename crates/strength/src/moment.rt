// The yield moment of a dowel, M = 0.3 fu d^2.6 (000 and 001).
ghost use Rattle.std.specs.Prelude.{◌≡◌};
ghost use Rattle.wide.specs.Natural.{value};
ghost use Rattle.strength.specs.Shear.{DowelWithin};
ghost use Rattle.strength.specs.Figures.{YieldMoment};
ghost use Rattle.strength.specs.Leaves.{HintWithin};
ghost use Rattle.strength.specs.Working.{yield_to_the_fifth};

use crate::roots;

// 2^24, and a bound that keeps 2^24 times a number in 64 bits.
const FRACTION: u64 = 16777216;

const WINDOW: u64 = 1099511627776;

// The fifth power of the yield moment in thousandths of a Nmm.
fn to_the_fifth(diameter: u64, steel: u64) -> [u32; 5]
    requires { DowelWithin diameter steel }
    ensures { value result ≡ yield_to_the_fifth diameter steel }
{
    let b = 300 * steel;
    let d2 = diameter * diameter;
    let x = b * b * d2 * d2 * diameter;
    let square = wide::product_u64(x, x);
    wide::times_u64(&square, b * d2 * diameter)
}

// A step of Newton's method towards the fifth root of a number below 2^15, in units of 2^-24.
fn refined(number: u64, root: u64) -> u64 {
    let r = root % 4294967296 + 1;
    let over1 = number % 32768 * 281474976710656 / r;
    let over2 = over1 % WINDOW * FRACTION / r;
    let over3 = over2 % WINDOW * FRACTION / r;
    let over4 = over3 % WINDOW * FRACTION / r;
    (4 * r + over4 % WINDOW) / 5
}

// About unit d^0.6 / 2: a hint, of which nothing is promised. d^0.6 lies within 4 % of 1.8 + 0.206 d.
fn hint(diameter: u64, unit: u64) -> u64
    requires { HintWithin diameter unit }
{
    let cube = diameter * diameter * diameter;
    let power = refined(
        cube,
        refined(cube, refined(cube, 30198988 + 3456106 * diameter)),
    );
    unit * (power % 4294967296) / (2 * FRACTION)
}

// The yield moment in whole thousandths of a Nmm, for a diameter in mm and fu in N/mm².
pub fn yield_moment(diameter: u64, steel: u64) -> u64
    requires { DowelWithin diameter steel }
    ensures { YieldMoment diameter steel result }
{
    let n = to_the_fifth(diameter, steel);
    // 2^5 ≤ d^3 < 8^5
    let unit = 600 * steel * diameter * diameter;
    let near = hint(diameter, unit);
    roots::fifth_root_near(&n, &[1u32; 1], unit, 4 * unit, near, 1)
}
