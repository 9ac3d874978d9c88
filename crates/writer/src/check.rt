// A firm's numbers as a record's values, where each fits its field.
ghost use Rattle.std.specs.Prelude.{◌≡◌, not, ◌≤◌, nat_abs, length};
ghost use Rattle.writer.specs.Write.{member_from, placed, values_from, version_unknown};
ghost use Rattle.writer.specs.Working.{fits_byte, fits_two_bytes, member_fits, fields_fit, fitting};

use crate::{Fields, MemberFields};
use joint::{Dowel, Loads, MOST_DOWELS, Member, Members, Outline, Positions, Values};

// One for each width, which promises its field's limits: one over `T: TryFrom<i32>` could promise only what that type's `try_from` gives, and
// each place that calls it would work the limits out again.
fn byte_from(z: &i32) -> Option<u8>
    ensures { result ≡ fitting (fits_byte z.now) (nat_abs z.now) }
{
    u8::try_from(*z).ok()
}

fn two_bytes_from(z: &i32) -> Option<u16>
    ensures { result ≡ fitting (fits_two_bytes z.now) (nat_abs z.now) }
{
    u16::try_from(*z).ok()
}

// The version, a number of any size, where it is known.
#[tactic(auto, unfolding(crate::specs::Write::version_unknown))]
pub(crate) fn known_version(f: &Fields) -> Option<u16>
    ensures { result ≡ fitting (not (version_unknown f.now)) (nat_abs f.now.version) }
{
    two_bytes_from(&f.version).filter(|version| codes::is_version(*version))
}

#[tactic(auto, unfolding(crate::specs::Working::member_fits))]
fn member_from(m: &MemberFields) -> Option<Member>
    ensures { result ≡ fitting (member_fits m.now) (member_from m.now) }
{
    Some(Member {
        class: byte_from(&m.class)?,
        grain: byte_from(&m.grain)?,
        thickness: two_bytes_from(&m.thickness)?,
        outline: Outline {
            x0: m.x0,
            y0: m.y0,
            x1: m.x1,
            y1: m.y1,
        },
    })
}

// A list's numbers, and then 0.
#[tactic(auto, using(crate::proofs::Placed::in_places))]
fn placed(l: &[i32]) -> [i32; MOST_DOWELS]
    requires { length l.now ≤ 64 }
    ensures { result ≡ placed l.now }
{
    let mut places = [0i32; MOST_DOWELS];
    places[..l.len()].copy_from_slice(l);
    places
}

#[tactic(auto, unfolding(crate::specs::Working::fields_fit, crate::specs::Write::values_from))]
pub(crate) fn values_from(version: u16, f: &Fields, x: &[i32], y: &[i32]) -> Option<Values>
    requires known { version ≡ nat_abs f.now.version }
    requires few { (length x.now ≤ 64) × (length y.now ≤ 64) }
    ensures { result ≡ fitting (fields_fit f.now) (values_from f.now x.now y.now) }
{
    Some(Values {
        version,
        members: Members {
            planes: byte_from(&f.planes)?,
            member1: member_from(&f.member1)?,
            member2: member_from(&f.member2)?,
        },
        dowel: Dowel {
            diameter: byte_from(&f.diameter)?,
            steel: byte_from(&f.steel)?,
        },
        positions: Positions {
            n: x.len(),
            x: placed(x),
            y: placed(y),
        },
        loads: Loads {
            service_class: byte_from(&f.service_class)?,
            duration: byte_from(&f.duration)?,
            fx: f.fx,
            fy: f.fy,
        },
    })
}
