// A table of classes: the printed one, or a firm's, which is lent as bytes: its own (02, A4), or its stretch of one that two firms share (A6). A firm's
// table is loaded, or turned away by 14, 15 or 16, and asked for a code.
#![tactic(auto)]

mod entry;
mod pairs;

ghost use Rattle.std.specs.Prelude.{◌≡◌, ◌≤◌, ◌<◌};
ghost use Rattle.tables.specs.Entries.{entries_of, rise};
ghost use Rattle.tables.specs.Classes.{class_in};
ghost use Rattle.tables.specs.Table.{entries_table, stretch_table, own_table, shared_table, table_of, table_number, is_class, wood_of};
ghost use Rattle.tables.specs.Told.{number_of, told};

use codes::{NO_WOOD, Wood};
use entry::{ENTRY_BYTES, Entry};
use pairs::{OWN_PAIRS, SHARED_PAIRS};

// Why a firm's table is turned away, by its number.
#[derive(Clone, Copy, Debug, PartialEq, Eq)]
pub enum Refusal {
    OtherLayout = 14,
    EntryOutside = 15,
    OtherFirm = 16,
}

impl Refusal {
    pub fn number(self) -> u8
        ensures { result ≡ number_of self }
    {
        self as u8
    }
}

// Whether each entry is within its limits, with a code above the one before.
#[tactic(auto, using(crate::proofs::Entries::rises, crate::proofs::Entries::risen), unfolding(crate::specs::Entries::rise))]
fn all_rise(entries: &[[u8; ENTRY_BYTES]]) -> bool
    ensures { result ≡ rise 0 (entries_of entries.now) }
{
    let mut before = 0;
    for bytes in entries {
        let e = Entry::from(*bytes);
        if !(e.is_within() & (before < e.code)) {
            return false;
        }
        before = e.code;
    }
    true
}

// What entries have at a code.
fn class_in(entries: &[[u8; ENTRY_BYTES]], code: u8) -> Option<Wood>
    ensures { result ≡ class_in (entries_table (entries_of entries.now)).classes code }
{
    entries
        .iter()
        .map(|bytes| Entry::from(*bytes))
        .find(|e| code == e.code)
        .map(Wood::from)
}

// Which table a call uses: the printed one, or one of a firm's entries, each in its four bytes, with nothing else of the bytes in which they were
// handed in; or that these are turned away before it comes to entries. No other crate can make the last two: they come from bytes, by `own` and
// `for_firm`. A value that callers hold, with methods, and no closure.
#[derive(Clone, Copy)]
pub enum Source<'a> {
    Printed,
    #[non_exhaustive]
    Entries(&'a [[u8; ENTRY_BYTES]]),
    #[non_exhaustive]
    TurnedAway(Refusal),
}

impl<'a> Source<'a> {
    // By the stretch of pair k alone, of a table with so many pairs.
    #[tactic(auto, using(crate::proofs::Stretches::pair_inside, crate::proofs::Stretches::part_inside))]
    fn stretch(table: &'a [u8], pairs: usize, k: usize) -> Source<'a>
        requires { (pairs ≤ 2) × (k < pairs) }
        ensures { table_of result ≡ stretch_table pairs k table.now }
    {
        if !pairs::are_laid(table, pairs) {
            return Source::TurnedAway(Refusal::OtherLayout);
        }
        Source::Entries(entry::entries_in(pairs::stretch_of(table, k)))
    }

    // A firm's own table, which may be any bytes.
    pub fn own(table: &'a [u8]) -> Source<'a>
        ensures { table_of result ≡ own_table table.now }
    {
        Source::stretch(table, OWN_PAIRS, 0)
    }

    // What a firm has of a table that firms 1 and 2 share, any number as firm and any bytes as table: its stretch, and nothing of the other's.
    #[tactic(auto, unfolding(crate::specs::Table::refusal16))]
    pub fn for_firm(firm: u32, table: &'a [u8]) -> Source<'a>
        ensures { table_of result ≡ shared_table firm table.now }
    {
        match firm {
            1 => Source::stretch(table, SHARED_PAIRS, 0),
            2 => Source::stretch(table, SHARED_PAIRS, 1),
            _ => Source::TurnedAway(Refusal::OtherFirm),
        }
    }

    // Why the table is turned away, if it is.
    #[tactic(auto, unfolding(crate::specs::Tests::first_holding, crate::specs::Entries::refusal15))]
    pub fn load(self) -> Result<(), Refusal>
        ensures { told result ≡ table_number (table_of self.entry) }
    {
        match self {
            Source::Printed => Ok(()),
            Source::Entries(entries) => {
                if all_rise(entries) {
                    Ok(())
                } else {
                    Err(Refusal::EntryOutside)
                }
            }
            Source::TurnedAway(refusal) => Err(refusal),
        }
    }

    // What the table has at a code, whether it loads or not: `load` says that.
    #[tactic(auto, unfolding(codes::specs::Tables::class_of, crate::specs::Classes::class_in))]
    pub fn class_of(self, code: u8) -> Option<Wood>
        ensures { result ≡ class_in (table_of self.entry).classes code }
    {
        match self {
            Source::Printed => codes::class_of(code),
            Source::Entries(entries) => class_in(entries, code),
            Source::TurnedAway(_) => None,
        }
    }

    // Whether the table has the class.
    pub fn is_class(self, code: u8) -> bool
        ensures { result ≡ is_class (table_of self.entry) code }
    {
        self.class_of(code).is_some()
    }

    // The wood of a class, with density 0 where the table lacks it.
    pub fn wood_of(self, code: u8) -> Wood
        ensures { result ≡ wood_of (table_of self.entry) code }
    {
        self.class_of(code).unwrap_or(NO_WOOD)
    }
}
