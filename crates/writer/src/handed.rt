// A record's values as the numbers that the writer takes: 0 where the version has no field.
ghost use Rattle.std.specs.Prelude.{◌≡◌};
ghost use Rattle.writer.specs.Read.{member_to, fields_of, marks_of};

use crate::{Fields, MemberFields};
use joint::{MOST_DOWELS, Member, Values};

impl From<&Member> for MemberFields {
    ghost from_gives = { λ m f. f ≡ member_to m.now };

    fn from(m: &Member) -> MemberFields {
        MemberFields {
            class: m.class.into(),
            grain: m.grain.into(),
            gx: 0,
            gy: 0,
            thickness: m.thickness.into(),
            x0: m.outline.x0,
            y0: m.outline.y0,
            x1: m.outline.x1,
            y1: m.outline.y1,
        }
    }
}

// All numbers but those of the dowels. By name and no `From`, since a conversion would not say that it leaves those behind.
#[tactic(auto, unfolding(crate::specs::Read::fields_of))]
pub fn fields_of(v: &Values) -> Fields
    ensures { result ≡ fields_of v.now }
{
    Fields {
        version: v.version.into(),
        planes: v.members.planes.into(),
        member1: MemberFields::from(&v.members.member1),
        member2: MemberFields::from(&v.members.member2),
        diameter: v.dowel.diameter.into(),
        steel: v.dowel.steel.into(),
        plate: 0,
        service_class: v.loads.service_class.into(),
        duration: v.loads.duration.into(),
        fx: v.loads.fx,
        fy: v.loads.fy,
    }
}

// The marks of all places.
#[tactic(auto, unfolding(crate::specs::Read::marks_of))]
pub fn marks_of(v: &Values) -> [i32; MOST_DOWELS]
    ensures { result ≡ marks_of v.now }
{
    [0i32; MOST_DOWELS]
}
