// The entries of `negwishal` and `root_entries` as C sees them: each calls the entry of the same name there, and promises what that promises. A crate of its own,
// since the kit builds a crate as a library or as a static library, and not as both.
#![tactic(auto)]

ghost use Rattle.std.specs.Prelude.{◌≡◌};
ghost use Rattle.tables.specs.Table.{printed, own_table, shared_table, table_number};
ghost use Rattle.negwishal.specs.Export.{Exported};
ghost use Rattle.negwishal.specs.Exchange.{places, ReadOut, WroteOut};
ghost use Rattle.root_entries.specs.Export.{BracketOut, RootOut};

// Loads a firm's own table.
#[unsafe(no_mangle)]
pub extern "C" fn negwishal_load(table: &[u8]) -> u32
    ensures { result ≡ table_number (own_table table.now) }
{
    negwishal::negwishal_load(table)
}

// Loads what a firm has of a shared table.
#[unsafe(no_mangle)]
pub extern "C" fn negwishal_load_for(firm: u32, shared: &[u8]) -> u32
    ensures { result ≡ table_number (shared_table firm shared.now) }
{
    negwishal::negwishal_load_for(firm, shared)
}

// Judges a record by the printed table.
#[unsafe(no_mangle)]
pub extern "C" fn negwishal_judge(bytes: &[u8], out: &mut [u64]) -> u32
    ensures { Exported printed bytes.now out.old result out.new }
{
    negwishal::negwishal_judge(bytes, out)
}

// Judges a record by a firm's own table.
#[unsafe(no_mangle)]
pub extern "C" fn negwishal_judge_with(table: &[u8], bytes: &[u8], out: &mut [u64]) -> u32
    ensures { Exported (own_table table.now) bytes.now out.old result out.new }
{
    negwishal::negwishal_judge_with(table, bytes, out)
}

// Judges a record by what a firm has of a shared table.
#[unsafe(no_mangle)]
pub extern "C" fn negwishal_judge_for(
    firm: u32,
    shared: &[u8],
    bytes: &[u8],
    out: &mut [u64],
) -> u32
    ensures { Exported (shared_table firm shared.now) bytes.now out.old result out.new }
{
    negwishal::negwishal_judge_for(firm, shared, bytes, out)
}

// Reads a record's values by the printed table.
#[unsafe(no_mangle)]
pub extern "C" fn negwishal_read(
    bytes: &[u8],
    fields: &mut [i32],
    x: &mut [i32],
    y: &mut [i32],
    marks: &mut [i32],
    answer: &mut [u64],
) -> u32
    ensures { ReadOut printed bytes.now
        (places fields.old x.old y.old marks.old answer.old) result
        (places fields.new x.new y.new marks.new answer.new) }
{
    negwishal::negwishal_read(bytes, fields, x, y, marks, answer)
}

// Reads a record's values by a firm's own table.
#[unsafe(no_mangle)]
pub extern "C" fn negwishal_read_with(
    table: &[u8],
    bytes: &[u8],
    fields: &mut [i32],
    x: &mut [i32],
    y: &mut [i32],
    marks: &mut [i32],
    answer: &mut [u64],
) -> u32
    ensures { ReadOut (own_table table.now) bytes.now
        (places fields.old x.old y.old marks.old answer.old) result
        (places fields.new x.new y.new marks.new answer.new) }
{
    negwishal::negwishal_read_with(table, bytes, fields, x, y, marks, answer)
}

// Reads a record's values by what a firm has of a shared table.
#[unsafe(no_mangle)]
pub extern "C" fn negwishal_read_for(
    firm: u32,
    shared: &[u8],
    bytes: &[u8],
    fields: &mut [i32],
    x: &mut [i32],
    y: &mut [i32],
    marks: &mut [i32],
    answer: &mut [u64],
) -> u32
    ensures { ReadOut (shared_table firm shared.now) bytes.now
        (places fields.old x.old y.old marks.old answer.old) result
        (places fields.new x.new y.new marks.new answer.new) }
{
    negwishal::negwishal_read_for(firm, shared, bytes, fields, x, y, marks, answer)
}

// Writes a record from its numbers by the printed table.
#[unsafe(no_mangle)]
pub extern "C" fn negwishal_write(
    fields: &[i32],
    x: &[i32],
    y: &[i32],
    marks: &[i32],
    buffer: &mut [u8],
    answer: &mut [u64],
) -> u32
    ensures { WroteOut printed fields.now x.now y.now buffer.old answer.old
        result buffer.new answer.new }
{
    negwishal::negwishal_write(fields, x, y, marks, buffer, answer)
}

// Writes a record from its numbers by a firm's own table.
#[unsafe(no_mangle)]
pub extern "C" fn negwishal_write_with(
    table: &[u8],
    fields: &[i32],
    x: &[i32],
    y: &[i32],
    marks: &[i32],
    buffer: &mut [u8],
    answer: &mut [u64],
) -> u32
    ensures { WroteOut (own_table table.now) fields.now x.now y.now buffer.old answer.old
        result buffer.new answer.new }
{
    negwishal::negwishal_write_with(table, fields, x, y, marks, buffer, answer)
}

// Writes a record from its numbers by what a firm has of a shared table.
#[unsafe(no_mangle)]
pub extern "C" fn negwishal_write_for(
    firm: u32,
    shared: &[u8],
    fields: &[i32],
    x: &[i32],
    y: &[i32],
    marks: &[i32],
    buffer: &mut [u8],
    answer: &mut [u64],
) -> u32
    ensures { WroteOut (shared_table firm shared.now) fields.now x.now y.now buffer.old answer.old
        result buffer.new answer.new }
{
    negwishal::negwishal_write_for(firm, shared, fields, x, y, marks, buffer, answer)
}

// The starting bracket of a number's whole square root.
#[unsafe(no_mangle)]
pub extern "C" fn negwishal_root_bracket(n: u64, answer: &mut [u64]) -> u32
    ensures { BracketOut n answer.old result answer.new }
{
    root_entries::negwishal_root_bracket(n, answer)
}

// A number's whole square root, and how many halvings led to it.
#[unsafe(no_mangle)]
pub extern "C" fn negwishal_whole_root(n: u64, answer: &mut [u64]) -> u32
    ensures { RootOut n answer.old result answer.new }
{
    root_entries::negwishal_whole_root(n, answer)
}
