// Loads the table files that its arguments name, each as a firm's own and as one that two firms share, and writes of each file 0, or 14 or 15 where it is
// turned away as a firm's own; and then what it is for each of six firm numbers: 0, 14, 15 or 16.
#![tactic(auto)]

use std::io;
use tables::{Refusal, Source};

// Longer than any table that it is run on.
const LONGEST: usize = 140000;

// Firms 1 and 2, and numbers of none: 257 has 1 as its lowest byte.
const FIRMS: [u32; 6] = [0, 1, 2, 3, 257, u32::MAX];

fn number(table: Source) -> u8 {
    table.load().err().map_or(0, Refusal::number)
}

fn main(rt: HostRuntime) -> io::Result<()> {
    intake::each_file(&rt, |path, mut file| {
        // On the stack, and not a Vec: loading a table asks for no memory.
        let mut room = [0u8; LONGEST];
        let n = intake::read_full(&mut file, &mut room);
        let bytes = &room[..n];
        let own = number(Source::own(bytes));
        print!(rt; "{path}: {own}, for firms")?;
        for firm in &FIRMS {
            let shared = number(Source::for_firm(*firm, bytes));
            print!(rt; " {shared}")?;
        }
        println!(rt; "")
    })
}
