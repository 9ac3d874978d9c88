// The files that a program's arguments name: opened, or told to standard error, and read as far as they can be.
#![tactic(auto)]

ghost use Rattle.std.specs.Prelude.{◌≡◌, ◌≤◌, ◌<◌, length, vec_len, IfSome, IfOk, IfErr};

use std::alloc::{AllocError, Global};
use std::env::Env;
use std::fs::File;
use std::io::{ErrorKind, Read};
use std::{io, str};

// The longest name that a file may have, and how many arguments are looked at, the program's own name first. A name is read into an array:
// `env::arg` wants lent room for it, and so no memory is asked for.
const LONGEST_NAME: usize = 4096;

const MOST_FILES: usize = 1000;

// Hands the name and the file of each argument to `each`, up to the first whose name is too long or no text, that cannot be opened, or
// where `each` fails.
// One at a time, since `env::args` fails where any argument is no text, before a file is read.
pub fn each_file<F: FnMut(&str, File) -> io::Result<()>>(
    rt: &HostRuntime,
    mut each: F,
) -> io::Result<()>
    requires { F.IsAlwaysCallable each }
{
    for i in 1..MOST_FILES {
        let mut room = [0u8; LONGEST_NAME];
        let Ok(length) = rt.arg(i, &mut room) else {
            return Ok(());
        };
        let Some(path) = name(rt, &room[..length]) else {
            return Ok(());
        };
        let Some(file) = open(rt, path) else {
            return Ok(());
        };
        each(path, file)?;
    }
    Ok(())
}

// A file's name as text, which std wants of a path; where it is none, that is told to standard error.
pub fn name<'a, R: Eprint + Alloc>(rt: &R, argument: &'a [u8]) -> Option<&'a str>
    ensures { IfSome result (λ path. path.now ≡ argument.now) }
{
    match str::from_utf8(argument) {
        Ok(path) => Some(path),
        Err(_) => {
            failure::fail(
                rt,
                "a file's name",
                io::Error::from(ErrorKind::InvalidInput),
            );
            None
        }
    }
}

// The file of that name; where it cannot be opened, that is told to standard error.
pub fn open(rt: &HostRuntime, path: &str) -> Option<File> {
    match File::open(rt, path) {
        Ok(file) => Some(file),
        Err(error) => {
            failure::fail(rt, path, error);
            None
        }
    }
}

// Reads until the buffer is full, the input ends or a read fails, and answers how many bytes stand at the buffer's start: `Err` where a
// read failed, which leaves room. By a `while`: std's `read_exact` would not say how many those are, and `read_to_end` wants memory.
pub fn fill<R: Read>(from: &mut R, buffer: &mut [u8]) -> Result<usize, usize>
    ensures ok { IfOk result (λ n. n ≤ length buffer.new) }
    ensures err { IfErr result (λ n. n < length buffer.new) }
{
    let mut done = 0;
    while done < buffer.len() {
        let n = from.read(&mut buffer[done..]).map_err(|_| done)?;
        if n == 0 {
            break;
        }
        done += n;
    }
    Ok(done)
}

// The same, whether a read failed or not.
pub fn read_full<R: Read>(from: &mut R, buffer: &mut [u8]) -> usize
    ensures { result ≤ length buffer.new }
{
    match fill(from, buffer) {
        Ok(n) | Err(n) => n,
    }
}

// What is read until there are `most` bytes, the input ends or a read fails.
pub fn read_up_to<R: Read>(alloc: Global, from: &mut R, most: usize) -> Result<Vec<u8>, AllocError>
    ensures { IfOk result (λ bytes. vec_len bytes ≤ most) }
{
    let mut bytes = vec![in alloc; 0; most]?;
    let n = read_full(from, &mut bytes);
    bytes.truncate(n);
    Ok(bytes)
}
