// Why a record is turned away (01, 'Who causes which refusal'; 02, A4).
ghost use Rattle.std.specs.Prelude.{◌≡◌};

use spacing::verdict::Fault;

// Refusals 1 to 9: by the script that writes the record, and by the designer's data.
#[derive(Clone, Copy, PartialEq, Eq, Debug)]
pub enum Refusal {
    TooFewBytes = 1,
    OtherVersion = 2,
    OtherPairCount = 3,
    PairsAgainstRule = 4,
    KindsNotOnce = 5,
    WrongLength = 6,
    FieldOutside = 7,
    EmptyOutline = 8,
    NoForce = 9,
}

impl Refusal {
    ghost use Rattle.joint.specs.Told.{number_of};

    // The enum's own number, under the name that 01 gives it; callers print it.
    pub fn number(self) -> u8
        ensures { result ≡ number_of self }
    {
        self as u8
    }
}

// Why a record is not read: the table of classes is turned away, by 14 to 16, or the record is, by 1 to 9.
#[derive(Clone, Copy, PartialEq, Eq, Debug)]
pub enum Unread {
    Table(tables::Refusal),
    Record(Refusal),
}

impl Unread {
    ghost use Rattle.joint.specs.Told.{unread_number};

    pub fn number(self) -> u8
        ensures { result ≡ unread_number self }
    {
        match self {
            Unread::Table(refusal) => refusal.number(),
            Unread::Record(refusal) => refusal.number(),
        }
    }
}

impl From<tables::Refusal> for Unread {
    ghost use Rattle.joint.specs.declared.refusals.Unread.TheVariants.{Table};

    ghost from_gives = { λ refusal r. r ≡ Table refusal };

    fn from(refusal: tables::Refusal) -> Unread {
        Unread::Table(refusal)
    }
}

impl From<Refusal> for Unread {
    ghost use Rattle.joint.specs.declared.refusals.Unread.TheVariants.{Record};

    ghost from_gives = { λ refusal r. r ≡ Record refusal };

    fn from(refusal: Refusal) -> Unread {
        Unread::Record(refusal)
    }
}

// Any refusal: the record is not read, or, 10 to 12, its drill plan has a fault.
#[derive(Clone, Copy, PartialEq, Eq, Debug)]
pub enum Rejection {
    Unread(Unread),
    Plan(Fault),
}

impl Rejection {
    ghost use Rattle.joint.specs.Told.{fault_in, plan_fault};

    pub fn number(self) -> u8
        ensures { result ≡ (fault_in self).number }
    {
        match self {
            Rejection::Unread(unread) => unread.number(),
            Rejection::Plan(fault) => fault.number(),
        }
    }

    // The fault in the drill plan, where it is one.
    fn fault(self) -> Option<Fault>
        ensures { result ≡ plan_fault self }
    {
        match self {
            Rejection::Unread(_) => None,
            Rejection::Plan(fault) => Some(fault),
        }
    }

    // The place: member and dowels, counted from 1; 0 where the number has none.
    pub fn member(self) -> u8
        ensures { result ≡ (fault_in self).member }
    {
        self.fault().map_or(0, Fault::member)
    }

    pub fn first(self) -> u8
        ensures { result ≡ (fault_in self).first }
    {
        self.fault().map_or(0, Fault::first)
    }

    pub fn second(self) -> u8
        ensures { result ≡ (fault_in self).second }
    {
        self.fault().map_or(0, Fault::second)
    }
}

impl From<Unread> for Rejection {
    ghost use Rattle.joint.specs.declared.refusals.Rejection.TheVariants.{Unread as NotRead};

    ghost from_gives = { λ unread r. r ≡ NotRead unread };

    fn from(unread: Unread) -> Rejection {
        Rejection::Unread(unread)
    }
}

impl From<Fault> for Rejection {
    ghost use Rattle.joint.specs.declared.refusals.Rejection.TheVariants.{Plan};

    ghost from_gives = { λ fault r. r ≡ Plan fault };

    fn from(fault: Fault) -> Rejection {
        Rejection::Plan(fault)
    }
}
