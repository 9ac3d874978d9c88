// Judges the record files that its arguments name, and writes the program's line of each.
#![tactic(auto)]

use arrayvec::ArrayString;
use console::Noting;
use std::fmt::Write;
use std::fs::File;
use std::io;
use std::io::ErrorKind;

// A name of up to 4,096 bytes, a colon and a space, and a line of up to 92.
const LONGEST: usize = 4190;

fn main(rt: HostRuntime) {
    let _ = intake::each_file(&rt, |path, file| {
        judge_file(&rt, path, file);
        Ok(())
    });
}

// Writes a file's name and its line together, by one write. Their text stands in an array: judging asks for no memory.
fn write_named(rt: &HostRuntime, name: &str, line: &str) -> io::Result<()> {
    let mut text = ArrayString::<LONGEST>::new();
    write!(text, "{name}: {line}").map_err(|_| io::Error::from(ErrorKind::InvalidInput))?;
    rt.write_all(text.as_str().as_bytes())
}

// Writes the line of a file. What fails is told to standard error, and the next file is judged. It is no `console::answer`, since it writes the
// file's name before the line, by one write.
fn judge_file(rt: &HostRuntime, path: &str, opened: File) {
    let mut file = Noting::new(opened);
    let mut buffer = [0u8; 4096];
    let a = console::judged(&mut file, &mut buffer);
    if a.judgement.is_none() {
        file.tell(rt, path);
    } else if let Err(error) = write_named(rt, path, a.line.as_str()) {
        failure::fail(rt, "standard output", error);
    }
}
