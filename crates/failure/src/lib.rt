// What failed, as one line on standard error.
#![tactic(auto)]

use std::io;

// Writes a line to standard error: what failed, as the caller names it, a colon and the system's words. Where standard error fails too,
// nothing is left to tell.
pub fn fail<R: Eprint + Alloc>(rt: &R, what: &str, error: io::Error) {
    let _ = write_failure(rt, what, error);
}

fn write_failure<R: Eprint + Alloc>(rt: &R, what: &str, error: io::Error) -> io::Result<()> {
    match format!(in rt.alloc(); "{error}") {
        Ok(text) => {
            let words = without_number(text.as_str());
            eprintln!(rt; "{what}: {words}")
        }
        // No memory for the words alone.
        Err(_) => eprintln!(rt; "{what}: {error}"),
    }
}

// An error of the system's ends in its number, as in ` (os error 21)`.
fn without_number(text: &str) -> &str {
    text.split_once(" (os error ")
        .map_or(text, |(words, _)| words)
}
