// Reads the record files that its arguments name, and writes of each the refusal with its place, or `accepted`.
#![tactic(auto)]

use std::fs::File;
use std::io;
use tables::Source;

// Longer than any record that it is run on.
const LONGEST: usize = 70000;

fn main(rt: HostRuntime) -> io::Result<()> {
    intake::each_file(&rt, |path, file| write_answer(&rt, path, file))
}

// The record stands on the stack, and not in a Vec: reading it asks for no memory.
fn write_answer(rt: &HostRuntime, path: &str, mut file: File) -> io::Result<()> {
    let mut room = [0u8; LONGEST];
    let n = intake::read_full(&mut file, &mut room);
    match joint::accept(Source::Printed, &room[..n]) {
        Ok(_) => println!(rt; "{path}: accepted"),
        Err(rejection) => println!(rt;
            "{path}: {} {} {} {}",
            rejection.number(),
            rejection.member(),
            rejection.first(),
            rejection.second()
        ),
    }
}
