// Joint records: one is read from bytes, or refused (01, 'The record' and 'Who causes which refusal'), by the printed table of classes or by the
// table that a call names (02, A4).
#![tactic(auto)]

ghost use Rattle.std.specs.Prelude.{◌≡◌};
ghost use Rattle.tables.specs.Table.{printed, table_of};
ghost use Rattle.joint.specs.Refusal.{zero_values, reading_of, outcome_of};
ghost use Rattle.joint.specs.Told.{reading, outcome_in, told};
ghost use Rattle.joint.specs.Claim.{Reported};

mod demand;
mod drill;
mod figures;
mod layout;
pub mod limits;
mod parts;
pub mod places;
pub mod refusals;
pub mod report;

use crate::refusals::{Rejection, Unread};
use crate::report::Judgement;
use tables::Source;

// The most dowels that a record may have.
pub const MOST_DOWELS: usize = 64;

// Limits in tenths of a millimetre.
#[derive(Clone, Copy, Default)]
pub struct Outline {
    pub x0: i32,
    pub y0: i32,
    pub x1: i32,
    pub y1: i32,
}

// Grain 0 runs along x, 1 along y; thickness in tenths of a millimetre. Class and grain here, and steel, service class and duration below, are
// the record's numbers and no enums, since values are read before they are tested.
#[derive(Clone, Copy, Default)]
pub struct Member {
    pub class: u8,
    pub grain: u8,
    pub thickness: u16,
    pub outline: Outline,
}

// Kind 1. Member 1 is the side member, member 2 the other, or with two shear planes the middle one.
#[derive(Clone, Copy, Default)]
pub struct Members {
    pub planes: u8,
    pub member1: Member,
    pub member2: Member,
}

// Kind 2. Diameter in whole millimetres.
#[derive(Clone, Copy, Default)]
pub struct Dowel {
    pub diameter: u8,
    pub steel: u8,
}

// Kind 3. Coordinates in tenths of a millimetre; places from n on are 0. Two arrays by value, as 01 names them, and their number beside them,
// since there is no heap. That n is at most 64 is no ghost field, since values are read before they are tested.
#[derive(Clone, Copy, Default)]
pub struct Positions {
    pub n: usize,
    pub x: [i32; MOST_DOWELS],
    pub y: [i32; MOST_DOWELS],
}

// Kind 4. The force that the dowels put into member 2, in newtons.
#[derive(Clone, Copy, Default)]
pub struct Loads {
    pub service_class: u8,
    pub duration: u8,
    pub fx: i32,
    pub fy: i32,
}

#[derive(Clone, Copy, Default)]
pub struct Values {
    pub version: u16,
    pub members: Members,
    pub dowel: Dowel,
    pub positions: Positions,
    pub loads: Loads,
}

// Values that are all 0, as they are before a record is read and where it is refused. Its promise says so as one value; a `Default` says it field
// by field.
pub fn nothing() -> Values
    ensures { result ≡ zero_values }
{
    Values::default()
}

// Reads a record by a table: the table's refusal, the first of 1 to 9 that applies, or the record's values. 01 names `let .. else` for each stage
// of reading.
pub fn read_with(table: Source, bytes: &[u8]) -> Result<Values, Unread>
    ensures { reading result ≡ reading_of (table_of table.entry) bytes.now }
{
    let loaded = table.load();
    let Ok(()) = loaded else {
        return Err(loaded.unwrap_err().into());
    };
    let layout = layout::read_layout(bytes);
    let Ok(parts) = layout else {
        return Err(layout.unwrap_err().into());
    };
    let mut values = nothing();
    parts::put_values(bytes, parts, &mut values);
    let limits = limits::check_values(table, &values);
    let Ok(()) = limits else {
        return Err(limits.unwrap_err().into());
    };
    Ok(values)
}

// Reads a record by the printed table.
pub fn read(bytes: &[u8]) -> Result<Values, Unread>
    ensures { reading result ≡ reading_of printed bytes.now }
{
    read_with(Source::Printed, bytes)
}

// Reads a record and judges it by all refusals, the table's, 1 to 9 and 10 to 12: the first that applies, or the record's values.
pub fn accept(table: Source, bytes: &[u8]) -> Result<Values, Rejection>
    ensures { outcome_in result ≡ outcome_of (table_of table.entry) bytes.now }
{
    let values = read_with(table, bytes)?;
    drill::check(&values, drill::plan_of(&values))?;
    Ok(values)
}

// Judges a record of any length by a table, which may be any bytes: the refusal, or the verdict with the figures.
pub fn judge_with(table: Source, bytes: &[u8]) -> Judgement
    ensures { Reported (table_of table.entry) bytes.now (told result) }
{
    match accept(table, bytes) {
        Ok(values) => figures::judgement(table, &values),
        Err(rejection) => Judgement::Refused(rejection),
    }
}

// Judges a record of any length by the printed table.
pub fn judge(bytes: &[u8]) -> Judgement
    ensures { Reported printed bytes.now (told result) }
{
    judge_with(Source::Printed, bytes)
}
