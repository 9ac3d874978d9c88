// Runs the entries for C that find whole square roots: at a slice too short, at the least and greatest numbers, and at squares, those of powers of
// two among them, and their neighbours. A line has the number, the two codes, low and high of the starting bracket, the root, the halvings.
#![tactic(auto)]

use std::io;

// The least numbers, those beside powers of two, and the greatest.
const NUMBERS: [u64; 14] = [
    0,
    1,
    2,
    3,
    4,
    15,
    16,
    17,
    4611686018427387903,
    4611686018427387904,
    4611686018427387905,
    9223372036854775807,
    9223372036854775808,
    18446744073709551615,
];

// Roots, at whose squares and on both sides of them it is tried: some small ones, those beside powers of two, some in between, the greatest.
const ROOTS: [u64; 16] = [
    3, 5, 6, 7, 10, 100, 255, 256, 257, 65535, 65537, 1414213562, 2147483647, 2147483649,
    3037000499, 4294967295,
];

// What stands in a slice before it is written to.
const BEFORE: u64 = 7;

fn run(rt: &HostRuntime, n: u64) -> io::Result<()> {
    let mut bracket = [BEFORE; 3];
    let mut root = [BEFORE; 3];
    let found = root_entries::negwishal_root_bracket(n, &mut bracket);
    let rooted = root_entries::negwishal_whole_root(n, &mut root);
    let [low, high, past_bracket] = bracket;
    let [whole, halvings, past_root] = root;
    println!(rt;
        "{n}: {found} {rooted}, from {low} {high}, root {whole} in {halvings}, past them {past_bracket} {past_root}"
    )
}

// A slice of one number: both codes, and what stands in it after each.
fn run_short(rt: &HostRuntime, n: u64) -> io::Result<()> {
    let mut bracket = [BEFORE; 1];
    let mut root = [BEFORE; 1];
    let found = root_entries::negwishal_root_bracket(n, &mut bracket);
    let rooted = root_entries::negwishal_whole_root(n, &mut root);
    let [bracket] = bracket;
    let [root] = root;
    println!(rt; "{n}, short: {found} {rooted}, {bracket} {root}")
}

fn main(rt: HostRuntime) -> io::Result<()> {
    run_short(&rt, 0)?;
    run_short(&rt, 16)?;
    for n in NUMBERS {
        run(&rt, n)?;
    }
    for root in ROOTS {
        let square = root.wrapping_mul(root);
        run(&rt, square - 1)?;
        run(&rt, square)?;
        run(&rt, square + 1)?;
    }
    Ok(())
}
