// The figures of an accepted record: capacity, row shares and use.
ghost use Rattle.std.specs.Prelude.{◌≡◌, ◌≤◌};
ghost use Rattle.strength.specs.Shear.{PlaneWithin};
ghost use Rattle.spacing.specs.Spacing.{Given};
ghost use Rattle.strength.specs.Working.{capacity_of};
ghost use Rattle.tables.specs.Table.{table_of};
ghost use Rattle.joint.specs.DesignOf.{plane_member, plane_in};
ghost use Rattle.joint.specs.Told.{told, demand_told};
ghost use Rattle.joint.specs.Returned.{
  DemandWithin,
  PlaneGiven,
  Passed,
  taken_of,
  twice_planes,
  demand_in,
  report_with,
  answered,
};

use crate::demand::Demand;
use crate::report::{Figures, Judgement};
use crate::{Member, Values, drill};
use group::member;
use group::member::Both;
use spacing::force;
use strength::capacity;
use strength::plane::{Plane, Timber};
use tables::Source;

// A use of the whole capacity, in ten-thousandths.
const WHOLE: u64 = 10000;

// What the use takes of both members.
fn taken_of(v: &Values) -> Both
    requires given { Given v.now.dowel.diameter v.now.loads.fx v.now.loads.fy v.now.positions.n }
    requires some { (6 ≤ v.now.dowel.diameter) × (1 ≤ v.now.positions.n) }
    ensures { result ≡ taken_of v.now.members v.now.dowel v.now.loads v.now.positions }
{
    member::both_taken(
        v.members.member1.into(),
        v.members.member2.into(),
        drill::plan_of(v),
    )
}

// A member in the shear plane.
fn plane_member(table: Source, diameter: u8, m: &Member, along: u64, total: u64) -> Timber
    requires { along ≤ 1000000 }
    ensures { result ≡ plane_member (table_of table.entry) diameter m.now along total }
{
    let wood = table.wood_of(m.class);
    Timber {
        density: wood.density,
        k90: wood.kind.k90(diameter),
        along: along * along,
        total,
        thickness: m.thickness as u64,
    }
}

// The capacity of a shear plane in thousandths of a newton.
fn capacity_of(table: Source, v: &Values, total: u64, taken: Both) -> u64
    requires plane_within { PlaneWithin (plane_in (table_of table) v.now.members v.now.dowel total taken.member1.along taken.member2.along) }
    requires along_small { (taken.member1.along ≤ 1000000) × (taken.member2.along ≤ 1000000) }
    ensures { result ≡ capacity_of (plane_in (table_of table.entry) v.now.members v.now.dowel total taken.member1.along taken.member2.along) }
{
    let diameter = v.dowel.diameter;
    capacity::capacity_thousandths(Plane {
        member1: plane_member(
            table,
            diameter,
            &v.members.member1,
            taken.member1.along,
            total,
        ),
        member2: plane_member(
            table,
            diameter,
            &v.members.member2,
            taken.member2.along,
            total,
        ),
        diameter: diameter as u64,
        steel: codes::steel_strength(v.dowel.steel).unwrap_or(0),
        planes: v.members.planes as u64,
    })
}

// Twice the number of shear planes that count: a lone dowel counts half.
fn twice_planes(n: usize, planes: u8) -> u64
    requires { n ≤ 64 }
    ensures { result ≡ twice_planes n planes }
{
    if n == 1 {
        return planes as u64;
    }
    2 * (n as u64 * planes as u64)
}

// What the use depends on.
fn demand_of(table: Source, v: &Values, taken: Both) -> Demand
    requires plane { PlaneGiven (table_of table) v.now.members v.now.dowel v.now.loads taken.member1.along taken.member2.along }
    requires most { v.now.positions.n ≤ 64 }
    requires within { DemandWithin (demand_in (table_of table) v.now.members v.now.dowel v.now.loads v.now.positions.n taken) }
    ensures { demand_told result ≡ demand_in (table_of table.entry) v.now.members v.now.dowel v.now.loads v.now.positions.n taken }
{
    let loads = v.loads;
    let total = force::squared_force(loads.fx, loads.fy);
    Demand {
        total,
        member1: taken.member1,
        member2: taken.member2,
        planes2: twice_planes(v.positions.n, v.members.planes),
        kmod: codes::kmod_hundredths(loads.service_class, loads.duration).unwrap_or(0),
        capacity: capacity_of(table, v, total, taken),
    }
}

// What a joint of this demand and row share is told.
fn judgement_of(d: Demand, share: u64) -> Judgement
    ensures { told result ≡ report_with (demand_told d) share }
{
    let usage = d.use_ten_thousandths();
    let figures = Figures {
        usage,
        capacity: capacity::whole_newtons(d.capacity),
        share,
    };
    if usage <= WHOLE {
        Judgement::Fits(figures)
    } else {
        Judgement::Overloaded(figures)
    }
}

// What a record that is accepted by a table is told.
pub(crate) fn judgement(table: Source, v: &Values) -> Judgement
    requires { Passed (table_of table) v.now }
    ensures { told result ≡ answered (table_of table.entry) v.now }
{
    let taken = taken_of(v);
    judgement_of(demand_of(table, v, taken), taken.share)
}
