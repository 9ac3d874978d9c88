// The entries for C: a record is judged, its values are read, and a record is written from values, by the printed table of classes, or, `_with`, by
// a firm's own, or, `_for`, by what a firm has of a table that two firms share; and such tables are loaded. Each slice of numbers has an order that
// is fixed for good. The crate `negwishal_c` exports them under these names.
#![tactic(auto)]

ghost use Rattle.std.specs.Prelude.{◌≡◌, ◌≤◌, length};
ghost use Rattle.tables.specs.Table.{printed, own_table, shared_table, table_of, table_number};
ghost use Rattle.joint.specs.Told.{told};
ghost use Rattle.negwishal.specs.Export.{filled, Exported};
ghost use Rattle.negwishal.specs.Exchange.{places, ReadOut, WroteOut};
ghost use Rattle.negwishal.specs.Working.{Placed};

use joint::refusals::Unread;
use joint::report::Judgement;
use joint::{MOST_DOWELS, Values, nothing};
use lent::{NUMBERS, copy, fields_in, numbers_of, tell};
use tables::Source;
use writer::handed::{fields_of, marks_of};

// How many numbers a report takes.
pub const FIELDS: usize = 8;

// How many numbers answer a reader of values or a writer.
const ANSWERS: usize = 2;

// A report as it stands in a slice: verdict (0 refused, 1 fits, 2 overloaded), number, member, first, second, use, capacity, share.
// The verdicts' numbers are C's, and stand in no other code.
#[tactic(auto, unfolding(joint::specs::Returned::unanswered))]
fn numbers_in(judgement: Judgement) -> [u64; FIELDS]
    ensures { result ≡ filled (told judgement) }
{
    match judgement {
        Judgement::Refused(r) => [
            0,
            r.number() as u64,
            r.member() as u64,
            r.first() as u64,
            r.second() as u64,
            0,
            0,
            0,
        ],
        Judgement::Fits(f) => [1, 0, 0, 0, 0, f.usage, f.capacity, f.share],
        Judgement::Overloaded(f) => [2, 0, 0, 0, 0, f.usage, f.capacity, f.share],
    }
}

// Loads a table of classes: 0, or the number by which it is turned away.
fn load_by(table: Source) -> u32
    ensures { result ≡ table_number (table_of table.entry) }
{
    table
        .load()
        .err()
        .map_or(0, |refusal| refusal.number() as u32)
}

// A firm's own table: 0, 14 or 15.
pub fn negwishal_load(table: &[u8]) -> u32
    ensures { result ≡ table_number (own_table table.now) }
{
    load_by(Source::own(table))
}

// What a firm, 1 or 2, has of a table that both share: 0, 14, 15 or 16. In this entry and those `_for` below any number stands as the firm's, and the
// bytes of the table may be any.
pub fn negwishal_load_for(firm: u32, shared: &[u8]) -> u32
    ensures { result ≡ table_number (shared_table firm shared.now) }
{
    load_by(Source::for_firm(firm, shared))
}

// Judges a record by a table. A slice of fewer than eight numbers is left as it is and 1 comes back; else 0, and the report's fields stand in it:
// verdict (0 refused, 1 fits, 2 overloaded), number, member, first, second, use, capacity, share.
#[tactic(auto, using(joint::proofs::Claims::claimed))]
fn judge_by(table: Source, bytes: &[u8], out: &mut [u64]) -> u32
    ensures { Exported (table_of table.entry) bytes.now out.old result out.new }
{
    if out.len() < FIELDS {
        return 1;
    }
    copy(&numbers_in(joint::judge_with(table, bytes)), out);
    0
}

// By the printed table.
pub fn negwishal_judge(bytes: &[u8], out: &mut [u64]) -> u32
    ensures { Exported printed bytes.now out.old result out.new }
{
    judge_by(Source::Printed, bytes, out)
}

// By a firm's own table, which may be any bytes: where it is turned away the report is refused by its number.
pub fn negwishal_judge_with(table: &[u8], bytes: &[u8], out: &mut [u64]) -> u32
    ensures { Exported (own_table table.now) bytes.now out.old result out.new }
{
    judge_by(Source::own(table), bytes, out)
}

// By what a firm has of a shared table.
pub fn negwishal_judge_for(firm: u32, shared: &[u8], bytes: &[u8], out: &mut [u64]) -> u32
    ensures { Exported (shared_table firm shared.now) bytes.now out.old result out.new }
{
    judge_by(Source::for_firm(firm, shared), bytes, out)
}

// Puts the dowels' numbers into a slice each, as C lends them.
fn hand_places(v: &Values, x: &mut [i32], y: &mut [i32], marks: &mut [i32])
    requires { (64 ≤ length x.old) × (64 ≤ length y.old) × (64 ≤ length marks.old) }
    ensures { Placed v.now x.old y.old marks.old x.new y.new marks.new }
{
    copy(&v.positions.x, x);
    copy(&v.positions.y, y);
    copy(&marks_of(v), marks);
}

// Reads a record's values by a table. Where a slice is too short (27, 64, 64, 64, 2) all are left as they are and 1 comes back; else 0, and there
// stand in `fields` version, planes, then for member 1 and for member 2 each class, grain, gx, gy, thickness, x0, y0, x1, y1, then
// diameter, steel, plate, service class, duration, fx, fy; in `x`, `y` and `marks` a number for each of 64 dowels; in `answer` the
// table's refusal, 1 to 9 or 0, and the number of dowels. All but the refusal are 0 on refusal, and so is each number for which the record's
// version has no field. C lends each slice by itself, so no struct holds them.
fn read_by(
    table: Source,
    bytes: &[u8],
    fields: &mut [i32],
    x: &mut [i32],
    y: &mut [i32],
    marks: &mut [i32],
    answer: &mut [u64],
) -> u32
    ensures { ReadOut (table_of table.entry) bytes.now
        (places fields.old x.old y.old marks.old answer.old) result
        (places fields.new x.new y.new marks.new answer.new) }
{
    let short = (fields.len() < NUMBERS)
        | (x.len() < MOST_DOWELS)
        | (y.len() < MOST_DOWELS)
        | (marks.len() < MOST_DOWELS)
        | (answer.len() < ANSWERS);
    if short {
        return 1;
    }
    let reading = joint::read_with(table, bytes);
    let number = reading.err().map_or(0, Unread::number);
    let values = reading.unwrap_or(nothing());
    copy(&numbers_of(&fields_of(&values)), fields);
    hand_places(&values, x, y, marks);
    tell(number, values.positions.n, answer);
    0
}

// By the printed table.
pub fn negwishal_read(
    bytes: &[u8],
    fields: &mut [i32],
    x: &mut [i32],
    y: &mut [i32],
    marks: &mut [i32],
    answer: &mut [u64],
) -> u32
    ensures { ReadOut printed bytes.now
        (places fields.old x.old y.old marks.old answer.old) result
        (places fields.new x.new y.new marks.new answer.new) }
{
    read_by(Source::Printed, bytes, fields, x, y, marks, answer)
}

// By a firm's own table, which may be any bytes.
pub fn negwishal_read_with(
    table: &[u8],
    bytes: &[u8],
    fields: &mut [i32],
    x: &mut [i32],
    y: &mut [i32],
    marks: &mut [i32],
    answer: &mut [u64],
) -> u32
    ensures { ReadOut (own_table table.now) bytes.now
        (places fields.old x.old y.old marks.old answer.old) result
        (places fields.new x.new y.new marks.new answer.new) }
{
    read_by(Source::own(table), bytes, fields, x, y, marks, answer)
}

// By what a firm has of a shared table.
pub fn negwishal_read_for(
    firm: u32,
    shared: &[u8],
    bytes: &[u8],
    fields: &mut [i32],
    x: &mut [i32],
    y: &mut [i32],
    marks: &mut [i32],
    answer: &mut [u64],
) -> u32
    ensures { ReadOut (shared_table firm shared.now) bytes.now
        (places fields.old x.old y.old marks.old answer.old) result
        (places fields.new x.new y.new marks.new answer.new) }
{
    let table = Source::for_firm(firm, shared);
    read_by(table, bytes, fields, x, y, marks, answer)
}

// Writes a record by a table from its numbers, which stand in `fields`, `x` and `y` as the reader hands them out, but that `x` and `y` have a
// number for each dowel and no more. Where `fields` or `answer` is too short (27, 2) nothing is written and 1 comes back; else 0, and
// `answer` has the refusal or 0, and how many bytes of `buffer` are the record's. C lends each slice by itself here too. The hints here and on the
// writer itself keep writing by the printed table as quick as it was: as calls these two would hand nine slices on and copy the values once more.
#[inline(always)]
fn write_by(
    table: Source,
    fields: &[i32],
    x: &[i32],
    y: &[i32],
    marks: &[i32],
    buffer: &mut [u8],
    answer: &mut [u64],
) -> u32
    ensures { WroteOut (table_of table.entry) fields.now x.now y.now buffer.old answer.old
        result buffer.new answer.new }
{
    let short = (fields.len() < NUMBERS) | (answer.len() < ANSWERS);
    if short {
        return 1;
    }
    match writer::write_with(table, &fields_in(fields), x, y, marks, buffer) {
        Ok(length) => tell(0, length, answer),
        Err(unwritten) => tell(unwritten.number(), 0, answer),
    }
    0
}

// By the printed table.
pub fn negwishal_write(
    fields: &[i32],
    x: &[i32],
    y: &[i32],
    marks: &[i32],
    buffer: &mut [u8],
    answer: &mut [u64],
) -> u32
    ensures { WroteOut printed fields.now x.now y.now buffer.old answer.old
        result buffer.new answer.new }
{
    write_by(Source::Printed, fields, x, y, marks, buffer, answer)
}

// By a firm's own table, which may be any bytes.
pub fn negwishal_write_with(
    table: &[u8],
    fields: &[i32],
    x: &[i32],
    y: &[i32],
    marks: &[i32],
    buffer: &mut [u8],
    answer: &mut [u64],
) -> u32
    ensures { WroteOut (own_table table.now) fields.now x.now y.now buffer.old answer.old
        result buffer.new answer.new }
{
    write_by(Source::own(table), fields, x, y, marks, buffer, answer)
}

// By what a firm has of a shared table.
pub fn negwishal_write_for(
    firm: u32,
    shared: &[u8],
    fields: &[i32],
    x: &[i32],
    y: &[i32],
    marks: &[i32],
    buffer: &mut [u8],
    answer: &mut [u64],
) -> u32
    ensures { WroteOut (shared_table firm shared.now) fields.now x.now y.now buffer.old answer.old
        result buffer.new answer.new }
{
    let table = Source::for_firm(firm, shared);
    write_by(table, fields, x, y, marks, buffer, answer)
}
