// Writes a joint record from its values (02, A2), by the printed table of classes or by the table that a call names (A4), and hands a record's
// values on as the numbers that the writer takes.
#![tactic(auto)]

ghost use Rattle.std.specs.Prelude.{◌≡◌};
ghost use Rattle.tables.specs.Table.{printed, table_of};
ghost use Rattle.writer.specs.Write.{Wrote};
ghost use Rattle.writer.specs.Told.{told};

mod check;
pub mod handed;

use joint::MOST_DOWELS;
use joint::limits::check_values;
use joint::places::POSITION_BYTES;
use joint::refusals::Refusal;
use put::put_record;
use tables::Source;

// Bytes of a record without dowels.
const RECORD_BYTES: usize = 78;

// A member as it is handed over. Grain 0 runs along x, 1 along y; versions 1 and 2 have no gx and gy.
#[derive(Clone, Copy)]
pub struct MemberFields {
    pub class: i32,
    pub grain: i32,
    pub gx: i32,
    pub gy: i32,
    pub thickness: i32,
    pub x0: i32,
    pub y0: i32,
    pub x1: i32,
    pub y1: i32,
}

// All numbers of a record but those of its dowels; versions 1 and 2 have no plate.
#[derive(Clone, Copy)]
pub struct Fields {
    pub version: i32,
    pub planes: i32,
    pub member1: MemberFields,
    pub member2: MemberFields,
    pub diameter: i32,
    pub steel: i32,
    pub plate: i32,
    pub service_class: i32,
    pub duration: i32,
    pub fx: i32,
    pub fy: i32,
}

// Why a record is not written: the table of classes is turned away, the values are, or the buffer is shorter than the record.
#[derive(Clone, Copy, PartialEq, Eq, Debug)]
pub enum Unwritten {
    Table(tables::Refusal),
    Values(Refusal),
    BufferTooShort,
}

impl Unwritten {
    ghost use Rattle.writer.specs.Told.{number_of};

    // A refusal of the table or of the values keeps its number, and the writer has one of its own.
    pub fn number(self) -> u8
        ensures { result ≡ number_of self }
    {
        match self {
            Unwritten::Table(refusal) => refusal.number(),
            Unwritten::Values(refusal) => refusal.number(),
            Unwritten::BufferTooShort => 13,
        }
    }
}

impl From<tables::Refusal> for Unwritten {
    ghost use Rattle.writer.specs.declared.Unwritten.TheVariants.{Table};

    ghost from_gives = { λ refusal r. r ≡ Table refusal };

    fn from(refusal: tables::Refusal) -> Unwritten {
        Unwritten::Table(refusal)
    }
}

impl From<Refusal> for Unwritten {
    ghost use Rattle.writer.specs.declared.Unwritten.TheVariants.{Values};

    ghost from_gives = { λ refusal r. r ≡ Values refusal };

    fn from(refusal: Refusal) -> Unwritten {
        Unwritten::Values(refusal)
    }
}

// Writes the record of a firm's numbers, in the version that they name, into the buffer's first bytes and reports how many. A table that is
// turned away refuses the values before any test of their own; then come the tests of a record's values, and then whether the buffer is long
// enough; on refusal the buffer stays as it is. Versions 1 and 2 have no marks, and they are not looked at. A list for each of x, y and marks, since
// C lends them so. Why the hint: `negwishal::write_by` says it.
#[inline(always)]
pub fn write_with(
    table: Source,
    f: &Fields,
    x: &[i32],
    y: &[i32],
    marks: &[i32],
    buffer: &mut [u8],
) -> Result<usize, Unwritten>
    ensures { Wrote (table_of table.entry) f.now x.now y.now buffer.old buffer.new (told result) }
{
    table.load()?;
    let version = check::known_version(f).ok_or(Refusal::OtherVersion)?;
    // Each test has a name of its own, as what the values' tests answer has: wrong programs in must-fail/ change a test and keep its name.
    let differ = y.len() != x.len();
    let too_many = MOST_DOWELS < x.len();
    if differ || too_many {
        return Err(Refusal::FieldOutside.into());
    }
    let values = check::values_from(version, f, x, y).ok_or(Refusal::FieldOutside)?;
    let checked = check_values(table, &values);
    checked?;
    let length = RECORD_BYTES + POSITION_BYTES * x.len();
    if buffer.len() < length {
        return Err(Unwritten::BufferTooShort);
    }
    put_record(buffer, &values);
    Ok(length)
}

// Writes the record by the printed table.
pub fn write(
    f: &Fields,
    x: &[i32],
    y: &[i32],
    marks: &[i32],
    buffer: &mut [u8],
) -> Result<usize, Unwritten>
    ensures { Wrote printed f.now x.now y.now buffer.old buffer.new (told result) }
{
    write_with(Source::Printed, f, x, y, marks, buffer)
}
