// Compares 001's Tables 13-5, 13-6 and 13-7, its factors k1 and k2 and its Example 13-1 with what `strength` works out, and writes how
// many printed values were compared and how many differ.
#![tactic(auto)]

mod cells;
mod factors;
mod tables;

ghost use Rattle.std.specs.Prelude.{◌≤◌};

use codes::Kind;
use std::{fmt, io};
use strength::plane::{Plane, Timber};
use strength::{capacity, moment};
use tables::Table;

// The cells of a table.
const CELLS: usize = 285;

// t1,req at 45° for a diameter of 10 mm.
const ALTERED: usize = 136;

// How many printed values were compared, and how many differ.
#[derive(Clone, Copy)]
struct Tally {
    compared: usize,
    differing: usize,
}

impl fmt::Display for Tally {
    fn fmt<W: fmt::Write>(&self, f: &mut fmt::Formatter<W>) -> fmt::Result {
        write!(
            f,
            "compared {}, differing {}",
            self.compared, self.differing
        )
    }
}

fn main(rt: HostRuntime) -> io::Result<()> {
    write_tally(&rt, "Tables 13-5 to 13-7, cells", all_tables(None))?;
    write_tally(
        &rt,
        "one cell altered by one unit",
        all_tables(Some(ALTERED)),
    )?;
    write_tally(
        &rt,
        "factors k1",
        all_factors(&factors::WOOD, factors::wood_squared),
    )?;
    write_tally(
        &rt,
        "factors k2",
        all_factors(&factors::STEEL, factors::steel_squared),
    )?;
    write_tally(&rt, "Example 13-1, M and capacity", example(145930, 13445))?;
    write_tally(&rt, "altered by one unit each", example(145940, 13444))
}

fn write_tally(rt: &impl Print, name: &str, t: Tally) -> io::Result<()> {
    println!(rt; "{name}: {t}")
}

// The three tables, with the altered cell in Table 13-6.
fn all_tables(altered: Option<usize>) -> Tally {
    Tally {
        compared: 3 * CELLS,
        differing: differing(Table::Single, None)
            + differing(Table::MiddleTurned, altered)
            + differing(Table::SidesTurned, None),
    }
}

// How many cells of a table differ.
fn differing(table: Table, altered: Option<usize>) -> usize
    ensures { result ≤ 285 }
{
    (0..CELLS)
        .filter(|cell| cells::differs(table, *cell, altered))
        .count()
}

// The factors with the codes 1, 2 and so on.
fn all_factors<F: Fn(u8) -> u64>(printed: &[u16], square_of_twice: F) -> Tally
    requires { F.IsAlwaysCallable square_of_twice }
{
    Tally {
        compared: printed.len(),
        differing: factors::differing(printed, square_of_twice),
    }
}

// Whether a value in thousandths is not within a unit of what is printed.
fn off(value: u64, printed: u64, unit: u64) -> bool
    requires { (unit ≤ printed) × (printed ≤ 1000000) }
{
    value <= 1000 * (printed - unit) || 1000 * (printed + unit) <= value
}

// Example 13-1: GL28h, one shear plane, d = 16 mm, S235, along the grain, 80 mm on both sides.
// 001 prints M = 145.930 Nmm, rounded to tens, and 13.445 N, worked out with f rounded to 29,27 N/mm².
fn example(moment: u64, capacity: u64) -> Tally
    requires { ((10 ≤ moment) × (moment ≤ 1000000)) × ((1 ≤ capacity) × (capacity ≤ 1000000)) }
{
    let m = Timber {
        density: 425,
        k90: Kind::Softwood.k90(16),
        along: 1,
        total: 1,
        thickness: 800,
    };
    let c = capacity::capacity_thousandths(Plane {
        member1: m,
        member2: m,
        diameter: 16,
        steel: 360,
        planes: 1,
    });
    Tally {
        compared: 2,
        differing: usize::from(off(moment::yield_moment(16, 360), moment, 10))
            + usize::from(off(c, capacity, 1)),
    }
}
