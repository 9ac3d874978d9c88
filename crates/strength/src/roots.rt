// Whole roots. The square root's bracket starts at the greatest power of two that may be it and is halved until one number is left; the fifth
// root is found by recursive bracketing: it lies between lo and hi, and the width hi - lo falls at each call.
ghost use Rattle.std.specs.Prelude.{◌≡◌, ℕ, ◌+◌, ◌*◌, ◌^◌, ◌<◌, ◌≤◌, true, false, nat_le};
ghost use Rattle.wide.specs.Natural.{value};
ghost use Rattle.strength.specs.Roots.{SquareRoot, FifthRoot, FifthBracket, FactorWithin, Inside};
ghost use Rattle.strength.specs.Halvings.{Starting, Counted};

// A bracket of a whole square root: the root is at least low and below high.
#[derive(Clone, Copy)]
pub struct Bracket {
    pub low: u64,
    pub high: u64,
}

// The bracket from which the whole square root of any 64-bit number is looked for, by the number's leading zeros. High reaches 2^32.
pub fn starting_bracket(n: u64) -> Bracket
    ensures { Starting n result }
{
    if n == 0 {
        return Bracket { low: 0, high: 1 };
    }
    let low = 1u64 << ((63 - n.leading_zeros()) / 2);
    Bracket { low, high: 2 * low }
}

// A whole square root, and how many halvings of the starting bracket led to it.
#[derive(Clone, Copy)]
pub struct CountedRoot {
    pub root: u64,
    pub halvings: u64,
}

// The whole square root of any 64-bit number, with the halvings counted. Of a bracket it keeps what a test of its middle takes, so that none
// multiplies: what n has above the square of low, what the middle's square has above it, and the square of half the width. Where the width
// is 1 the last is 0, and the one before it is low.
pub fn counted_root(n: u64) -> CountedRoot
    ensures near { SquareRoot n result.root }
    ensures counted { Counted n result.root result.halvings }
{
    let start = starting_bracket(n);
    let width = start.high - start.low;
    let mut above = n - start.low * start.low;
    let mut square = (width / 2) * (width / 2);
    let mut needed = start.low * width + square;
    let mut halvings = 0;
    while square > 0 {
        let quarter = square / 4;
        let lower = needed / 2 - quarter;
        if above < needed {
            needed = lower;
        } else {
            above -= needed;
            needed = lower + square;
        }
        square = quarter;
        halvings += 1;
    }
    CountedRoot {
        root: needed,
        halvings,
    }
}

// The whole square root of any 64-bit number.
pub fn whole_square_root(n: u64) -> u64
    ensures { SquareRoot n result }
{
    counted_root(n).root
}

// A number from low on and below high at which a test passes and fails at the next one: where the test falls, the greatest at which it passes.
// It is tried only below high.
pub fn greatest_between<F: Fn(u64) -> bool>(low: u64, high: u64, passes: &F) -> u64
    requires apart { low < high }
    requires tried { (number : ℕ) → number < high → F.pre passes.now number }
    requires lowest { F.post passes.now low true }
    requires highest { F.post passes.now high false }
    ensures within { (low ≤ result) × (result < high) }
    ensures passed { F.post passes.now result true }
    ensures failed { F.post passes.now (result + 1) false }
{
    if high - low <= 1 {
        return low;
    }
    let middle = low.midpoint(high);
    if passes(middle) {
        greatest_between(middle, high, passes)
    } else {
        greatest_between(low, middle, passes)
    }
}

// Whether r^5 q is at most n. The bound on q stands here and in two contracts of `group`, and is no ghost field: q is a lent slice, and
// each product would take a struct for this one fact apart again.
pub fn fifth_power_at_most(r: u64, q: &[u32], n: &[u32]) -> bool
    requires { FactorWithin (value q.now) }
    ensures { result ≡ nat_le (r ^ 5 * value q.now) (value n.now) }
{
    let square = wide::product_u64(r, r);
    let fourth: [u32; 8] = wide::product(&square, &square);
    let fifth: [u32; 10] = wide::times_u64(&fourth, r);
    let product: [u32; 13] = wide::product(&fifth, q);
    wide::at_most(&product, n)
}

// A number inside a bracket: the hint where it lies inside, else the middle.
fn inside(lo: u64, hi: u64, hint: u64) -> u64
    requires { lo + 1 < hi }
    ensures { Inside lo hi result }
{
    if lo < hint && hint < hi {
        hint
    } else {
        lo.midpoint(hi)
    }
}

// The whole fifth root of n/q, known to be at least lo and below hi. The hint is tried first, then numbers that go away from it
// by step, 2 step, 4 step and so on; where these leave the bracket it is halved. Hint and step decide how many numbers are
// tried and nothing else.
// Six parameters: the bracket, the hint and the step all change at each call, and a struct would be made anew each time.
pub(crate) fn fifth_root_near(n: &[u32], q: &[u32], lo: u64, hi: u64, hint: u64, step: u64) -> u64
    requires { FifthBracket (value n.now) (value q.now) lo hi }
    ensures { FifthRoot (value n.now) (value q.now) result }
{
    let width = hi - lo;
    if width <= 1 {
        return lo;
    }
    let probe = inside(lo, hi, hint);
    let further = step.wrapping_add(step);
    if fifth_power_at_most(probe, q, n) {
        fifth_root_near(n, q, probe, hi, probe.wrapping_add(step), further)
    } else {
        fifth_root_near(n, q, lo, probe, probe.wrapping_sub(step), further)
    }
}
