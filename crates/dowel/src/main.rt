// Reads one joint record from standard input and writes its answer as one line. Run here on joint B of 01.
#![tactic(auto)]

use std::env::{Env, FillError};

fn main(rt: HostRuntime) {
    if has_argument(&rt) {
        let _ = eprintln!(rt; "usage: dowel < RECORD");
        return;
    }
    // An array and no `Vec`: the zeroed buffer is asked for by name, and judging asks for no memory.
    let mut buffer = [0u8; 4096];
    console::answer(&rt, &mut rt.stdin(), &mut buffer);
}

// Whether anything stands after the program's name.
fn has_argument<R: Env>(rt: &R) -> bool {
    !matches!(rt.arg(1, &mut []), Err(FillError::NotPresent))
}
