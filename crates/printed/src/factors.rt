// 001's factors k1 of the classes of wood and k2 of the steels (below Tables 13-5 to 13-7) beside the tables of `codes`:
// k1 is the root of density/350, k2 that of fu/360.
ghost use Rattle.std.specs.Prelude.{◌≡◌, ◌*◌, ◌/◌, ◌≤◌, ◌<◌, cond, ltb, length};
ghost use Rattle.codes.specs.Tables.{wood_of, steel_of, listed};

use strength::roots;

// k1 in thousandths, typed as printed: C24, C30, GL24h, GL24c, GL28h, GL28c, GL32h, GL32c.
pub const WOOD: [u16; 8] = [1000, 1042, 1049, 1021, 1102, 1056, 1121, 1069];

// k2 in thousandths, typed as printed: S235, S275, S355.
pub const STEEL: [u16; 3] = [1000, 1093, 1190];

// A table's value, 0 where it is too large to be multiplied.
fn small(value: u64) -> u64
    ensures size { result < 10000 }
    ensures is { result ≡ cond (ltb value 10000) value 0 }
{
    if value < 10000 { value } else { 0 }
}

// 4,000,000 times density/350 of a class: the square of twice k1 in thousandths.
pub fn wood_squared(code: u8) -> u64
    ensures { let d = (wood_of code).density in result ≡ 4000000 * cond (ltb d 10000) d 0 / 350 }
{
    4000000 * small(codes::wood_of(code).density) / 350
}

// 4,000,000 times fu/360 of a steel: the square of twice k2 in thousandths.
pub fn steel_squared(code: u8) -> u64
    ensures { let f = listed (steel_of code) in result ≡ 4000000 * cond (ltb f 10000) f 0 / 360 }
{
    4000000 * small(codes::steel_strength(code).unwrap_or(0)) / 360
}

// Whether a factor does not round to its print: twice it does not lie between twice the print less 1 and twice the print plus 1.
fn differs(print: u16, square_of_twice: u64) -> bool {
    let twice = 2 * u64::from(print);
    let r = roots::whole_square_root(square_of_twice);
    twice < r || r + 1 < twice
}

// How many of the factors with the codes 1, 2 and so on differ from what is printed.
pub fn differing<F: Fn(u8) -> u64>(printed: &[u16], square_of_twice: F) -> usize
    requires { F.IsAlwaysCallable square_of_twice }
    ensures { result ≤ length printed.now }
{
    printed
        .iter()
        .zip(1..=255)
        .filter(|(print, code)| differs(**print, square_of_twice(*code)))
        .count()
}
