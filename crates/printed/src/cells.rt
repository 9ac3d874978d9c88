// A cell of the tables compared with the capacity of its shear plane: C24 and S235, kmod 0.8 and γM 1.3.
ghost use Rattle.std.specs.Prelude.{◌≤◌};
ghost use Rattle.strength.specs.Shear.{MemberWithin};

use crate::tables;
use crate::tables::Table;
use codes::Kind;
use strength::capacity;
use strength::plane::{Plane, Timber};

// Density of C24 in kg/m³.
const DENSITY: u64 = 350;

// fu of S235 in N/mm².
const STEEL: u64 = 360;

// The unit of cos²: 10^12.
const TOTAL: u64 = 1000000000000;

// A thickness in tenths of a mm, for which the capacity is worked out.
#[derive(Clone, Copy)]
struct Thickness {
    tenths: u64,
    ghost low: { 200 ≤ tenths },
    ghost high: { tenths ≤ 4000 },
}

// The thickest member that the capacity is worked out for: there the first term decides alone.
const THICK: Thickness = Thickness { tenths: 4000 };

// More thousandths of a newton than any cell has.
const BEYOND: u64 = 100000000;

// c thousandths of a newton are 0.8 c/1.3/10,000 = c/16,250 hundredths of a kN.
const HUNDREDTH: u64 = 16250;

// Where a group of three cells stands: the dowel's diameter in mm, cos² of both members in units of 10^-12, the shear planes.
#[derive(Clone, Copy)]
pub struct Setting {
    pub diameter: u8,
    pub member1: u64,
    pub member2: u64,
    pub planes: u64,
    ghost diameter_low: { 10 ≤ diameter },
    ghost diameter_high: { diameter ≤ 24 },
    ghost member1_high: { member1 ≤ 1000000000000 },
    ghost member2_high: { member2 ≤ 1000000000000 },
    ghost planes_low: { 1 ≤ planes },
    ghost planes_high: { planes ≤ 2 },
}

// The member at the angle φ is member 2 in Tables 13-5 and 13-6, and member 1 in Table 13-7; the other's angle is 0. The tables differ in data
// alone, which stand here.
fn setting_of(table: Table, group: usize) -> Setting {
    let d = tables::diameter(group % 5);
    let turned = tables::cos_squared(group / 5);
    match table {
        Table::Single => Setting {
            diameter: d,
            member1: TOTAL,
            member2: turned,
            planes: 1,
        },
        Table::MiddleTurned => Setting {
            diameter: d,
            member1: TOTAL,
            member2: turned,
            planes: 2,
        },
        Table::SidesTurned => Setting {
            diameter: d,
            member1: turned,
            member2: TOTAL,
            planes: 2,
        },
    }
}

fn member(diameter: u8, along: u64, thickness: Thickness) -> Timber
    requires { (diameter ≤ 24) × (along ≤ 1000000000000) }
    ensures { MemberWithin result }
{
    Timber {
        density: DENSITY,
        k90: Kind::Softwood.k90(diameter),
        along,
        total: TOTAL,
        thickness: thickness.tenths,
    }
}

// The capacity in thousandths of a newton for two thicknesses.
fn capacity_at(s: Setting, member1: Thickness, member2: Thickness) -> u64 {
    capacity::capacity_thousandths(Plane {
        member1: member(s.diameter, s.member1, member1),
        member2: member(s.diameter, s.member2, member2),
        diameter: s.diameter as u64,
        steel: STEEL,
        planes: s.planes,
    })
}

// Whether c thousandths of a newton round to a force in hundredths of a kN.
fn rounds_to(c: u64, print: u16) -> bool {
    let exact = u64::from(print) * HUNDREDTH;
    if c < exact {
        exact - c <= HUNDREDTH / 2
    } else {
        c - exact < HUNDREDTH / 2
    }
}

// The force: c and c + 2, between which 1000 R lies, both round to the print.
fn force_differs(s: Setting, print: u16) -> bool {
    let c = capacity_at(s, THICK, THICK);
    BEYOND < c || !rounds_to(c, print) || !rounds_to(c + 2, print)
}

// A least thickness, with the capacity at a thickness of its member: half a mm above the print the first term decides, half a mm
// below it not.
fn thickness_differs<F: Fn(Thickness) -> u64>(s: Setting, print: u16, capacity_with: F) -> bool
    requires { F.IsAlwaysCallable capacity_with }
{
    if !(21..=399).contains(&print) {
        return true;
    }
    let first = capacity_at(s, THICK, THICK);
    let tenths = 10 * u64::from(print);
    let above = Thickness { tenths: tenths + 5 };
    let below = Thickness { tenths: tenths - 5 };
    capacity_with(above) != first || first <= capacity_with(below)
}

// Whether a cell differs: the force, the least thickness of the side member or that of the other.
pub fn differs(table: Table, cell: usize, altered: Option<usize>) -> bool {
    let s = setting_of(table, cell / 3);
    let print = tables::printed(table, cell, altered);
    match cell % 3 {
        0 => force_differs(s, print),
        1 => thickness_differs(s, print, |thickness| capacity_at(s, thickness, THICK)),
        _ => thickness_differs(s, print, |thickness| capacity_at(s, THICK, thickness)),
    }
}
