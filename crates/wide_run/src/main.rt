// Runs the public operations of `wide` on the cases of standard input and writes what it got, ten lines for each case. Where an
// operation asks something of its operands, it is run only where a test shows that, and the line ends in '-' elsewhere.
// `times_u64`, into as many limbs as the code says, runs in `strength_run`.
#![tactic(auto)]

ghost use Rattle.std.specs.Prelude.{◌≡◌, ◌+◌, ◌<◌, ◌≤◌, length, replicate, IfOk};
ghost use Rattle.wide.specs.Natural.{value};

mod cases;
mod guards;

use arrayvec::ArrayVec;
use std::io;
use std::io::{ErrorKind, Read};

// More cases than any input has: nothing says that an input ends.
const MOST_CASES: usize = 100000;

fn main(rt: HostRuntime) -> io::Result<()> {
    for _ in 0..MOST_CASES {
        if !next_case(&rt)? {
            return Ok(());
        }
    }
    Ok(())
}

// Reads and runs one case; false where the input has no whole case left.
fn next_case(rt: &HostRuntime) -> io::Result<bool> {
    let mut block = [0u8; 138];
    let Ok(()) = rt.stdin().read_exact(&mut block) else {
        return Ok(false);
    };
    run_case(rt, &block)?;
    Ok(true)
}

// A case is 138 bytes: the number of limbs of a and of b, sixteen limbs of each, and a 64-bit multiplier.
fn run_case(rt: &HostRuntime, block: &[u8; 138]) -> io::Result<()> {
    let a = cases::limbs_at(block, 2);
    let b = cases::limbs_at(block, 66);
    let a = &a[..cases::count(block[0])];
    let b = &b[..cases::count(block[1])];
    let m = cases::u64_at(block, 130);
    write_from_u64(rt, m)?;
    write_at_most(rt, a, b)?;
    write_sum(rt, a, b)?;
    write_product(rt, a, b)?;
    write_product_and_sum(rt, a, b)?;
    write_product_u64(rt, a, m)?;
    write_sum_in_place(rt, a, b)?;
    write_difference(rt, a, b)?;
    write_quotient(rt, a, b)?;
    write_short_product(rt, cases::u64_at(block, 2), m)
}

// The most limbs that a line needs: those of a and b together. They stand in arrays, so that no memory is asked for.
const MOST_LIMBS: usize = 32;

type Limbs = ArrayVec<u32, MOST_LIMBS>;

fn too_many() -> io::Error {
    io::Error::from(ErrorKind::InvalidInput)
}

// So many limbs, all alike.
fn alike(limb: u32, count: usize) -> io::Result<Limbs>
    ensures { IfOk result (λ v. v.items ≡ replicate count limb) }
{
    if MOST_LIMBS < count {
        return Err(too_many());
    }
    let mut limbs = Limbs::from([limb; MOST_LIMBS]);
    limbs.truncate(count);
    Ok(limbs)
}

// So many limbs that are 0.
fn zeros(count: usize) -> io::Result<Limbs>
    ensures { IfOk result (λ v. (value v.items ≡ 0) × (length v.items ≡ count)) }
{
    alike(0, count)
}

// The limbs of a number, to be changed in place.
fn copy_of(a: &[u32]) -> io::Result<Limbs>
    ensures { IfOk result (λ v. v.items ≡ a.now) }
{
    let mut limbs = Limbs::new();
    limbs.try_extend_from_slice(a).map_err(|_| too_many())?;
    Ok(limbs)
}

// All limbs, the highest first.
fn write_limbs(rt: &HostRuntime, s: &[u32]) -> io::Result<()> {
    for limb in s.iter().rev() {
        print!(rt; "{limb:08x}")?;
    }
    Ok(())
}

fn write_line(rt: &HostRuntime, name: &str, s: &[u32]) -> io::Result<()> {
    print!(rt; "{name}")?;
    write_limbs(rt, s)?;
    println!(rt; "")
}

fn write_none(rt: &HostRuntime, name: &str) -> io::Result<()> {
    println!(rt; "{name}-")
}

// What follows takes its operands a and b as `wide` does: a struct of both would only be taken apart again.

fn write_from_u64(rt: &HostRuntime, m: u64) -> io::Result<()> {
    write_line(rt, "from ", &wide::from_u64(m))
}

// Whether a is at most b, and b at most a.
fn write_at_most(rt: &HostRuntime, a: &[u32], b: &[u32]) -> io::Result<()> {
    let below = u8::from(wide::at_most(a, b));
    let above = u8::from(wide::at_most(b, a));
    println!(rt; "at most {below}{above}")
}

// a + b, in one limb more than the longer of both has.
fn write_sum(rt: &HostRuntime, a: &[u32], b: &[u32]) -> io::Result<()> {
    let mut room = zeros(a.len().max(b.len()) + 1)?;
    let s = room.as_mut_slice();
    wide::add_to(s, a);
    wide::add_to(s, b);
    write_line(rt, "sum ", s)
}

// a b, in as many limbs as a and b have together.
fn write_product(rt: &HostRuntime, a: &[u32], b: &[u32]) -> io::Result<()> {
    let mut p = zeros(a.len() + b.len())?;
    wide::multiply_add(&mut p, a, b);
    write_line(rt, "product ", &p)
}

// a b + b + a, likewise: one less than (a + 1) (b + 1).
fn write_product_and_sum(rt: &HostRuntime, a: &[u32], b: &[u32]) -> io::Result<()> {
    let mut room = zeros(a.len() + b.len())?;
    let p = room.as_mut_slice();
    wide::multiply_add(p, a, b);
    wide::add_to(p, b);
    wide::add_to(p, a);
    write_line(rt, "product and sum ", p)
}

// a m, in two limbs more than a has.
fn write_product_u64(rt: &HostRuntime, a: &[u32], m: u64) -> io::Result<()> {
    let mut p = zeros(a.len() + 2)?;
    wide::multiply_add_u64(&mut p, a, m);
    write_line(rt, "times ", &p)
}

// The product of two 64-bit numbers: the two lowest limbs of a, and m.
fn write_short_product(rt: &HostRuntime, a: u64, m: u64) -> io::Result<()> {
    write_line(rt, "short product ", &wide::product_u64(a, m))
}

// a + b in as many limbs as a has, where they hold it.
fn write_sum_in_place(rt: &HostRuntime, a: &[u32], b: &[u32]) -> io::Result<()> {
    let mut room = alike(u32::MAX, a.len())?;
    if guards::has_room(a, b, &mut room) {
        let mut sum = copy_of(a)?;
        wide::add_to(&mut sum, b);
        write_line(rt, "in place ", &sum)
    } else {
        write_none(rt, "in place ")
    }
}

// a - b, where b is at most a.
fn write_difference(rt: &HostRuntime, a: &[u32], b: &[u32]) -> io::Result<()> {
    if wide::at_most(b, a) {
        let mut rest = copy_of(a)?;
        wide::subtract_from(&mut rest, b);
        write_line(rt, "difference ", &rest)
    } else {
        write_none(rt, "difference ")
    }
}

// a / b and the remainder, where the quotient is below 2^64.
fn write_quotient(rt: &HostRuntime, a: &[u32], b: &[u32]) -> io::Result<()>
    requires { length b.now ≤ 16 }
{
    if guards::has_short_quotient(a, b) {
        let mut rest = copy_of(a)?;
        let quotient = wide::quotient(&mut rest, b);
        print!(rt; "quotient {quotient:016x}")?;
        write_line(rt, " rest ", &rest)
    } else {
        write_none(rt, "quotient ")
    }
}
