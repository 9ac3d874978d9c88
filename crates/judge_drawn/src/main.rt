// Judges joints drawn otherwise (02, A8), through the entry for C. The arguments are names of record files, by sixes: a joint as it was first drawn;
// its dowels listed in another order; moved; mirrored in x; mirrored in y; and all of these, one after the other. Each six get one line: the file of
// the first and its report, then of each other whether its report is the same but for the dowels named, and these, where a refusal names any.
#![tactic(auto)]

use std::io;

// Longer than any record that it is run on.
const LONGEST: usize = 4096;

// Drawings of a joint after the first.
const OTHERS: usize = 5;

// Verdict, number, member, first, second, use, capacity, share.
type Report = [u64; 8];

// Without the dowels named.
fn unnamed(report: Report) -> [u64; 6] {
    let [verdict, number, member, _, _, usage, capacity, share] = report;
    [verdict, number, member, usage, capacity, share]
}

fn judged(record: &[u8]) -> Report {
    let mut report = [7; 8];
    negwishal::negwishal_judge(record, &mut report);
    report
}

fn write_first(rt: &HostRuntime, path: &str, report: Report) -> io::Result<()> {
    print!(rt; "{path}:")?;
    for number in &report {
        print!(rt; " {number}")?;
    }
    Ok(())
}

fn write_other(rt: &HostRuntime, first: Report, report: Report) -> io::Result<()> {
    if unnamed(report) == unnamed(first) {
        print!(rt; ", same")?;
    } else {
        print!(rt; ", another")?;
    }
    let [_, _, _, one, two, _, _, _] = report;
    if one != 0 {
        print!(rt; " {one} {two}")?;
    }
    Ok(())
}

fn main(rt: HostRuntime) -> io::Result<()> {
    let mut first = [0; 8];
    let mut left = 0;
    intake::each_file(&rt, |path, mut file| {
        let bytes = intake::read_up_to(rt.alloc(), &mut file, LONGEST)?;
        let report = judged(&bytes);
        if left == 0 {
            first = report;
            left = OTHERS;
            return write_first(&rt, path, report);
        }
        write_other(&rt, first, report)?;
        left -= 1;
        if left == 0 {
            println!(rt; "")?;
        }
        Ok(())
    })
}
