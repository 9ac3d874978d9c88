// Runs the entries for C that write and read values. Each argument names a file. One that starts with `case` holds numbers for the writer,
// and the line says what came back, the answer, and every byte of the buffer; any other is a record, which is read and, where it passes,
// written again into a buffer as long as itself. (What reading leaves in each slice is tested in tests/header.)
#![tactic(auto)]

ghost use Rattle.std.specs.Prelude.{◌≤◌};

use std::{array, io};

// Longer than any file that it is run on.
const LONGEST: usize = 4096;

// Where the numbers of a case stand, counted in numbers: how long the slices are, then the fields, then the lists.
const ROOM: usize = 1;

const FIELDS_LENGTH: usize = 2;

const X_LENGTH: usize = 3;

const Y_LENGTH: usize = 4;

const MARKS_LENGTH: usize = 5;

const FIELDS: usize = 8;

const X: usize = 40;

const Y: usize = 120;

const MARKS: usize = 200;

// How many numbers a list has at most, and how many bytes a buffer.
const MOST: usize = 80;

const MOST_BYTES: usize = 640;

// The lists of numbers from which a record is written.
#[derive(Clone, Copy)]
struct Lists<'a> {
    fields: &'a [i32],
    x: &'a [i32],
    y: &'a [i32],
    marks: &'a [i32],
}

impl Lists<'_> {
    // Writes into a buffer of `room` bytes that holds 170 everywhere; the answer has two numbers more than it needs. Prints what came back,
    // the answer, and the buffer.
    fn write(self, rt: &HostRuntime, room: usize) -> io::Result<()> {
        let mut all = [170u8; MOST_BYTES];
        let Some(buffer) = all.get_mut(..room) else {
            return Ok(());
        };
        let mut answer = [7u64; 4];
        let code = negwishal::negwishal_write(
            self.fields,
            self.x,
            self.y,
            self.marks,
            buffer,
            &mut answer,
        );
        print!(rt; " {code}")?;
        for number in &answer {
            print!(rt; " {number}")?;
        }
        print!(rt; " :")?;
        for byte in &*buffer {
            print!(rt; " {byte}")?;
        }
        Ok(())
    }
}

// The numbers of a case, each in its four bytes.
#[derive(Clone, Copy)]
struct Case<'a>(&'a [[u8; 4]]);

impl<'a> Case<'a> {
    // Those of a file; bytes past the last whole number are none.
    fn of(bytes: &'a [u8]) -> Self {
        let (whole, _) = bytes.as_chunks();
        Case(whole)
    }

    // Those from number k on.
    fn rest(self, k: usize) -> Self {
        Case(self.0.get(k..).unwrap_or(&[]))
    }

    // Number k, where there is one.
    fn number(self, k: usize) -> Option<i32> {
        self.0.get(k).map(|bytes| numbers::i32_at(bytes, 0))
    }

    // The length that number k names, but no more than `most`; `most` where there is none.
    fn length(self, k: usize, most: usize) -> usize
        ensures { result ≤ most }
    {
        self.number(k)
            .map_or(most, |n| most.min(n.cast_unsigned() as usize))
    }

    // The numbers from k on, 0 past the end. An array, so that no memory is asked for.
    fn list(self, k: usize) -> [i32; MOST] {
        let rest = self.rest(k);
        array::from_fn(|i| rest.number(i).unwrap_or(0))
    }

    // Of each list as many numbers as the case names.
    fn run(self, rt: &HostRuntime) -> io::Result<()> {
        let fields = self.list(FIELDS);
        let x = self.list(X);
        let y = self.list(Y);
        let marks = self.list(MARKS);
        let lists = Lists {
            fields: &fields[..self.length(FIELDS_LENGTH, MOST)],
            x: &x[..self.length(X_LENGTH, MOST)],
            y: &y[..self.length(Y_LENGTH, MOST)],
            marks: &marks[..self.length(MARKS_LENGTH, MOST)],
        };
        lists.write(rt, self.length(ROOM, MOST_BYTES))
    }
}

// The first n numbers of a list, or all.
fn first(l: &[i32], n: usize) -> &[i32] {
    l.get(..n).unwrap_or(l)
}

fn run_record(rt: &HostRuntime, bytes: &[u8]) -> io::Result<()> {
    let mut fields = [0i32; 27];
    let mut x = [0i32; 64];
    let mut y = [0i32; 64];
    let mut marks = [0i32; 64];
    let mut answer = [0u64; 2];
    let code = negwishal::negwishal_read(
        bytes,
        &mut fields,
        &mut x,
        &mut y,
        &mut marks,
        &mut answer,
    );
    let [refusal, dowels] = answer;
    print!(rt; " {code} {refusal} {dowels}")?;
    if refusal != 0 {
        return Ok(());
    }
    let n = dowels as usize;
    let lists = Lists {
        fields: &fields,
        x: first(&x, n),
        y: first(&y, n),
        marks: first(&marks, n),
    };
    lists.write(rt, bytes.len())
}

fn main(rt: HostRuntime) -> io::Result<()> {
    intake::each_file(&rt, |path, mut file| {
        let mut room = [0u8; LONGEST];
        let n = intake::read_full(&mut file, &mut room);
        let bytes = &room[..n];
        print!(rt; "{path}:")?;
        if bytes.starts_with(b"case") {
            Case::of(bytes).run(&rt)?;
        } else {
            run_record(&rt, bytes)?;
        }
        println!(rt; "")
    })
}
