// Where the fields of a record stand, in bytes, and how many bytes its parts have (01, 'The record'): for its reader and its writer.

// Where the version stands and where the number of pairs does.
pub const VERSION_AT: usize = 0;

pub const COUNT_AT: usize = 2;

// How many pairs there are, where the first one stands and where the first part starts: right after the last pair.
pub const PAIRS: usize = 4;

pub const FIRST_PAIR: usize = 4;

pub const HEADER_BYTES: usize = 20;

// The kinds of parts: a part's first byte.
#[derive(Clone, Copy, PartialEq, Eq, Debug)]
pub enum Kind {
    Members = 1,
    Dowel = 2,
    Positions = 3,
    Loads = 4,
}

impl Kind {
    ghost use Rattle.std.specs.Prelude.{◌≡◌};
    ghost use Rattle.joint.specs.Told.{kind_code};

    // The enum's own number, under the record's word for a part's first byte.
    pub fn code(self) -> u8
        ensures { result ≡ kind_code self }
    {
        self as u8
    }
}

// The bytes of the parts that have one length only.
pub const MEMBERS_BYTES: usize = 42;

pub const DOWEL_BYTES: usize = 3;

pub const LOADS_BYTES: usize = 11;

// Where the members stand in their part, after kind and shear planes; each has 20 bytes.
pub const MEMBER_1: usize = 2;

pub const MEMBER_2: usize = 22;

// Kind and N, and then x and y of each dowel.
pub const POSITIONS_FRONT: usize = 2;

pub const POSITION_BYTES: usize = 8;

// Where the first dowel's x and y stand in their part.
pub const FIRST_X: usize = 2;

pub const FIRST_Y: usize = 6;
