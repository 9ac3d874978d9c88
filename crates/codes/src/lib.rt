// What a code of the record stands for: the wood of a class, the strength of a steel, kmod; k90 of a kind of wood; which versions are
// known.
#![tactic(auto)]

ghost use Rattle.std.specs.Prelude.{◌≡◌};
ghost use Rattle.codes.specs.Tables.{is_version, class_of, wood_of, steel_of, kmod_of, k90_of};

const FIRST_VERSION: u16 = 1;

const LAST_VERSION: u16 = 2;

// Whether records of this version are known.
pub fn is_version(n: u16) -> bool
    ensures { result ≡ is_version n }
{
    (FIRST_VERSION..=LAST_VERSION).contains(&n)
}

// Kind of wood: k90 depends on it.
#[derive(Clone, Copy, PartialEq, Eq, Debug)]
pub enum Kind {
    Softwood,
    Hardwood,
}

impl Kind {
    // k90 in thousandths, for a diameter in mm.
    pub fn k90(self, diameter: u8) -> u64
        ensures { result ≡ k90_of self diameter }
    {
        match self {
            Kind::Softwood => 1350 + 15 * (diameter as u64),
            Kind::Hardwood => 900 + 15 * (diameter as u64),
        }
    }
}

// Characteristic density in kg/m³.
#[derive(Clone, Copy, PartialEq, Eq, Debug)]
pub struct Wood {
    pub kind: Kind,
    pub density: u64,
}

// What stands for the wood of a class that the table lacks. By name, and no `Default`: that would offer it for a wood like any other.
pub const NO_WOOD: Wood = Wood {
    kind: Kind::Softwood,
    density: 0,
};

// The printed table of classes.
#[tactic(auto, unfolding(crate::specs::Tables::class_of, crate::specs::Tables::printed_classes))]
pub fn class_of(class: u8) -> Option<Wood>
    ensures { result ≡ class_of class }
{
    let (kind, density) = match class {
        1 => (Kind::Softwood, 350),
        2 => (Kind::Softwood, 380),
        3 => (Kind::Softwood, 385),
        4 => (Kind::Softwood, 365),
        5 => (Kind::Softwood, 425),
        6 => (Kind::Softwood, 390),
        7 => (Kind::Softwood, 440),
        8 => (Kind::Softwood, 400),
        9 => (Kind::Hardwood, 530),
        10 => (Kind::Hardwood, 550),
        11 => (Kind::Hardwood, 900),
        0 | 12..=255 => return None,
    };
    Some(Wood { kind, density })
}

// The wood of a class of the printed table, with density 0 where it lacks the class.
pub fn wood_of(class: u8) -> Wood
    ensures { result ≡ wood_of class }
{
    class_of(class).unwrap_or(NO_WOOD)
}

// Tensile strength fu of a steel in N/mm².
#[tactic(auto, unfolding(crate::specs::Tables::steel_of))]
pub fn steel_strength(steel: u8) -> Option<u64>
    ensures { result ≡ steel_of steel }
{
    match steel {
        1 => Some(360),
        2 => Some(430),
        3 => Some(510),
        0 | 4..=255 => None,
    }
}

// kmod in hundredths. The table as it is printed: a service class, and in it the durations.
#[tactic(auto, unfolding(crate::specs::Tables::kmod_of))]
pub fn kmod_hundredths(service_class: u8, duration: u8) -> Option<u64>
    ensures { result ≡ kmod_of service_class duration }
{
    match service_class {
        1 | 2 => match duration {
            1 => Some(60),
            2 => Some(70),
            3 => Some(80),
            4 => Some(90),
            5 => Some(110),
            0 | 6..=255 => None,
        },
        3 => match duration {
            1 => Some(50),
            2 => Some(55),
            3 => Some(65),
            4 => Some(70),
            5 => Some(90),
            0 | 6..=255 => None,
        },
        0 | 4..=255 => None,
    }
}
