// Runs the entries for C that take a table. The arguments are pairs of file names, a table and a record. Of each pair there are six lines: by the table as
// a firm's own, and for each of five firm numbers by it as one that two firms share. A line says what loading gives; the report on the record; what comes
// back for a report of seven numbers, which are to stay; what came back from reading the record, with the answer; and what came back from writing the
// numbers that were read, with the answer and whether the bytes are the record's. Where the table lacks a class the numbers are read without it, so that
// the writer is handed what its table lacks.
#![tactic(auto)]

use std::io;

// Longer than any file that it is run on.
const LONGEST: usize = 4096;

// What 01 and 02 say of a field outside its limits: here, of a class that the table lacks.
const FIELD_OUTSIDE: u64 = 7;

// Firms 1 and 2, and numbers of none: 257 has 1 as its lowest byte.
const FIRMS: [u32; 5] = [0, 1, 2, 3, 257];

// The numbers of a record, as the reader hands them out and the writer takes them.
#[derive(Clone, Copy)]
struct Numbers {
    fields: [i32; 27],
    x: [i32; 64],
    y: [i32; 64],
    marks: [i32; 64],
    answer: [u64; 2],
}

impl Numbers {
    // What stands in the slices before anything is read.
    fn new() -> Self {
        Numbers {
            fields: [7; 27],
            x: [7; 64],
            y: [7; 64],
            marks: [7; 64],
            answer: [7; 2],
        }
    }

    // By the printed table.
    fn read(&mut self, bytes: &[u8]) -> u32 {
        negwishal::negwishal_read(
            bytes,
            &mut self.fields,
            &mut self.x,
            &mut self.y,
            &mut self.marks,
            &mut self.answer,
        )
    }
}

// By what a record is judged, read and written: a table as a firm's own, or by the firm's number as one that two firms share.
#[derive(Clone, Copy)]
struct Table<'a> {
    firm: Option<u32>,
    bytes: &'a [u8],
}

impl Table<'_> {
    fn load(self) -> u32 {
        match self.firm {
            None => negwishal::negwishal_load(self.bytes),
            Some(firm) => negwishal::negwishal_load_for(firm, self.bytes),
        }
    }

    fn judge(self, record: &[u8], report: &mut [u64]) -> u32 {
        match self.firm {
            None => negwishal::negwishal_judge_with(self.bytes, record, report),
            Some(firm) => negwishal::negwishal_judge_for(firm, self.bytes, record, report),
        }
    }

    fn read(self, record: &[u8], to: &mut Numbers) -> u32 {
        match self.firm {
            None => negwishal::negwishal_read_with(
                self.bytes,
                record,
                &mut to.fields,
                &mut to.x,
                &mut to.y,
                &mut to.marks,
                &mut to.answer,
            ),
            Some(firm) => negwishal::negwishal_read_for(
                firm,
                self.bytes,
                record,
                &mut to.fields,
                &mut to.x,
                &mut to.y,
                &mut to.marks,
                &mut to.answer,
            ),
        }
    }

    fn write(self, from: &Numbers, buffer: &mut [u8], answer: &mut [u64]) -> u32 {
        let [_, dowels] = from.answer;
        let n = dowels as usize;
        let x = first(&from.x, n);
        let y = first(&from.y, n);
        let marks = first(&from.marks, n);
        match self.firm {
            None => negwishal::negwishal_write_with(
                self.bytes,
                &from.fields,
                x,
                y,
                marks,
                buffer,
                answer,
            ),
            Some(firm) => negwishal::negwishal_write_for(
                firm,
                self.bytes,
                &from.fields,
                x,
                y,
                marks,
                buffer,
                answer,
            ),
        }
    }
}

// The first n numbers of a list, or all.
fn first(l: &[i32], n: usize) -> &[i32] {
    l.get(..n).unwrap_or(l)
}

fn run_judge(rt: &HostRuntime, table: Table, record: &[u8]) -> io::Result<()> {
    let mut report = [7u64; 8];
    let loads = table.load();
    let code = table.judge(record, &mut report);
    print!(rt; "loads {loads}, judged {code}")?;
    for number in &report {
        print!(rt; " {number}")?;
    }
    let mut short = [7u64; 7];
    let code = table.judge(record, &mut short);
    print!(rt; ", short {code}")?;
    if short != [7; 7] {
        print!(rt; " written")?;
    }
    Ok(())
}

// Reads the numbers, and writes them into a buffer that holds 170 everywhere.
fn run_read(rt: &HostRuntime, table: Table, record: &[u8]) -> io::Result<()> {
    let mut numbers = Numbers::new();
    let code = table.read(record, &mut numbers);
    let [refusal, dowels] = numbers.answer;
    print!(rt; ", read {code} {refusal} {dowels}")?;
    if refusal == FIELD_OUTSIDE {
        numbers.read(record);
    }
    let mut buffer = vec![in rt.alloc(); 170u8; LONGEST]?;
    let mut answer = [7u64; 2];
    let code = table.write(&numbers, &mut buffer, &mut answer);
    let [refusal, length] = answer;
    print!(rt; ", written {code} {refusal} {length}")?;
    if (refusal == 0) & buffer.starts_with(record) {
        print!(rt; " same")?;
    }
    println!(rt; "")
}

fn run_pair(rt: &HostRuntime, table: &[u8], record: &[u8]) -> io::Result<()> {
    let own = Table {
        firm: None,
        bytes: table,
    };
    print!(rt; ": ")?;
    run_judge(rt, own, record)?;
    run_read(rt, own, record)?;
    for number in &FIRMS {
        let firm = *number;
        let shared = Table {
            firm: Some(firm),
            bytes: table,
        };
        print!(rt; "    firm {firm}: ")?;
        run_judge(rt, shared, record)?;
        run_read(rt, shared, record)?;
    }
    Ok(())
}

fn main(rt: HostRuntime) -> io::Result<()> {
    let mut table = None;
    intake::each_file(&rt, |path, mut file| {
        let bytes = intake::read_up_to(rt.alloc(), &mut file, LONGEST)?;
        match table.take() {
            None => {
                print!(rt; "{path} ")?;
                table = Some(bytes);
                Ok(())
            }
            Some(table) => {
                print!(rt; "{path}")?;
                run_pair(&rt, &table, &bytes)
            }
        }
    })
}
