// The entries of a firm's classes.
ghost use Rattle.std.specs.Prelude.{◌≡◌, Some};
ghost use Rattle.tables.specs.Entries.{entry_within, class_of, entries_in, entries_of};

use codes::{Kind, Wood};

pub(crate) const ENTRY_BYTES: usize = 4;

const LAST_KIND: u8 = 1;

// In kg/m³.
const LEAST_DENSITY: u16 = 290;

const MOST_DENSITY: u16 = 1100;

// Kind 0 is softwood, 1 hardwood; density in kg/m³. The kind stays a number, since an entry of another kind is one outside its limits.
#[derive(Clone, Copy)]
pub(crate) struct Entry {
    pub code: u8,
    pub kind: u8,
    pub density: u16,
}

impl Entry {
    #[tactic(auto, unfolding(crate::specs::Entries::entry_within))]
    pub(crate) fn is_within(self) -> bool
        ensures { result ≡ entry_within self }
    {
        (self.kind <= LAST_KIND) & (LEAST_DENSITY..=MOST_DENSITY).contains(&self.density)
    }
}

impl From<Entry> for Wood {
    ghost from_gives = { λ e w. Some w ≡ class_of e };

    fn from(e: Entry) -> Wood {
        let kind = if e.kind == 0 {
            Kind::Softwood
        } else {
            Kind::Hardwood
        };
        Wood {
            kind,
            density: e.density.into(),
        }
    }
}

// An entry from its bytes.
impl From<[u8; ENTRY_BYTES]> for Entry {
    ghost use Rattle.tables.specs.Entries.{entry_at};

    ghost from_gives = { λ bytes e. e ≡ entry_at bytes 0 };

    fn from(bytes: [u8; ENTRY_BYTES]) -> Entry {
        let [code, kind, low, high] = bytes;
        Entry {
            code,
            kind,
            density: u16::from_le_bytes([low, high]),
        }
    }
}

// The entries of a stretch, each in its four bytes.
#[tactic(auto, using(crate::proofs::Entries::in_fours))]
pub(crate) fn entries_in(stretch: &[u8]) -> &[[u8; ENTRY_BYTES]]
    ensures { entries_of result.now ≡ entries_in stretch.now }
{
    let (entries, _) = stretch.as_chunks();
    entries
}
