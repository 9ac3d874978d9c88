// The entries for C that find whole square roots: the bracket from which a root is looked for, and the root with the halvings that led to it. The
// crate `negwishal_c` exports them under these names.
#![tactic(auto)]

ghost use Rattle.root_entries.specs.Export.{Handed, BracketOut, RootOut};

use lent::copy;
use strength::roots;

// How many numbers an answer takes.
const ANSWERS: usize = 2;

// Puts two numbers into a slice. One of fewer than two is left as it is and 1 comes back, else 0. The hint keeps the root's loop away from it: with this
// inlined the loop's jump came to lie across 32 bytes, and a root of 64 bits took 75 ns for 48.
#[inline(never)]
fn hand(first: u64, second: u64, answer: &mut [u64]) -> u32
    ensures { Handed first second answer.old result answer.new }
{
    if answer.len() < ANSWERS {
        return 1;
    }
    copy(&[first, second], answer);
    0
}

// The starting bracket of a number's whole square root: low and high.
pub fn negwishal_root_bracket(n: u64, answer: &mut [u64]) -> u32
    ensures { BracketOut n answer.old result answer.new }
{
    let bracket = roots::starting_bracket(n);
    hand(bracket.low, bracket.high, answer)
}

// A number's whole square root, and how many halvings of the starting bracket led to it.
pub fn negwishal_whole_root(n: u64, answer: &mut [u64]) -> u32
    ensures { RootOut n answer.old result answer.new }
{
    let counted = roots::counted_root(n);
    hand(counted.root, counted.halvings, answer)
}
