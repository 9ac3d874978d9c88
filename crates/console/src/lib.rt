// One joint record from a reader, answered by one line on standard output (01, 'Printing').
#![tactic(auto)]

ghost use Rattle.joint.specs.Told.{told as told_of};
ghost use Rattle.console.specs.Input.{InputReported, Told, Replied};

use arrayvec::ArrayString;
use joint::refusals::{Refusal, Rejection, Unread};
use joint::report::Judgement;
use line::LONGEST;
use std::io;
use std::io::Read;

// The most bytes that are read: more are refusal 4, before any other test.
pub const MOST_BYTES: usize = 4096;

// What came of two reads, at first, until the buffer was full or the input ended, and when one byte more was asked for: some bytes, none at
// the end of the input, or `None` where a read failed. Then what follows from that: how many bytes are in the buffer, whether more came, what
// they are told, and the line of that. Where a read failed nothing is told and the line is empty. Count and flag are what `Told` speaks of, so
// they stand beside what they come from.
#[derive(Clone, Copy)]
pub struct Reply {
    pub first: Option<usize>,
    pub second: Option<usize>,
    pub count: usize,
    pub more: bool,
    pub judgement: Option<Judgement>,
    pub line: ArrayString<LONGEST>,
}

// The program's rule: the first `count` bytes of a buffer are judged, but where more came than the program reads, that is refusal 4
// before any other test. Buffer, count and flag stay apart: a count beyond the buffer means the whole of it, where a
// slice would ask that of the caller (docs/DECISIONS.md).
pub fn judge_input(buffer: &[u8], count: usize, more: bool) -> Judgement
    ensures { InputReported buffer.now count more (told_of result) }
{
    if more {
        return Judgement::Refused(Rejection::Unread(Unread::Record(Refusal::PairsAgainstRule)));
    }
    joint::judge(&buffer[..count.min(buffer.len())])
}

// One byte more, where no read before it failed.
fn one_more<R: Read>(from: &mut R, first: Option<usize>) -> Option<usize> {
    first?;
    from.read(&mut [0u8; 1]).ok()
}

// What the program answers where `first` came, and `second` when one byte more was asked for.
pub fn told(first: Option<usize>, second: Option<usize>, buffer: &[u8]) -> Reply
    ensures { Told first second buffer.now result }
{
    let count = first.unwrap_or(0);
    let more = second.unwrap_or(0) != 0;
    if first.is_none() | second.is_none() {
        return Reply {
            first,
            second,
            count,
            more,
            judgement: None,
            line: ArrayString::new(),
        };
    }
    let judgement = judge_input(buffer, count, more);
    Reply {
        first,
        second,
        count,
        more,
        judgement: Some(judgement),
        line: line::line_of(judgement),
    }
}

// Reads a record into the buffer and judges it. Nothing is written.
pub fn judged<R: Read>(from: &mut R, buffer: &mut [u8; MOST_BYTES]) -> Reply
    ensures { Replied buffer.new result }
{
    let first = intake::fill(from, buffer).ok();
    let second = one_more(from, first);
    told(first, second, buffer)
}

// A reader that keeps why its last failed read failed, which `None` does not say.
#[derive(Drop)]
pub struct Noting<R> {
    from: R,
    error: Option<io::Error>,
}

impl<R> Noting<R> {
    pub fn new(from: R) -> Noting<R> {
        Noting { from, error: None }
    }

    // Says on standard error what failed, if a read did.
    pub fn tell<P: Eprint + Alloc>(&self, rt: &P, what: &str) {
        if let Some(error) = self.error {
            failure::fail(rt, what, error);
        }
    }
}

impl<R: Read> Read for Noting<R> {
    fn read(&mut self, buf: &mut [u8]) -> io::Result<usize> {
        let got = self.from.read(buf);
        if let Err(error) = got {
            self.error = Some(error);
        }
        got
    }
}

// Reads a record into the buffer, judges it and writes its line by one write, which goes on with the rest where it was short. Where a
// read fails nothing is written but what failed, on standard error; so too where the write fails.
pub fn answer<P: Print + Eprint + Alloc, R: Read>(
    rt: &P,
    from: &mut R,
    buffer: &mut [u8; MOST_BYTES],
) -> Reply
    ensures { Replied buffer.new result }
{
    let mut from = Noting::new(from);
    let a = judged(&mut from, buffer);
    if a.judgement.is_none() {
        from.tell(rt, "standard input");
    } else if let Err(error) = rt.write_all(a.line.as_str().as_bytes()) {
        failure::fail(rt, "standard output", error);
    }
    a
}
