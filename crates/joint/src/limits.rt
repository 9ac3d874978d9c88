// The limits of a record's values: refusals 7 to 9.
ghost use Rattle.std.specs.Prelude.{◌≡◌};
ghost use Rattle.std.specs.List.{list_all};
ghost use Rattle.numbers.specs.Numbers.{coordinate};
ghost use Rattle.tables.specs.Tests.{first_holding};
ghost use Rattle.tables.specs.Table.{table_of};
ghost use Rattle.joint.specs.Refusal.{between, member_within, positions_within, loads_within, outline_empty, no_force};
ghost use Rattle.joint.specs.Refusal.{fields_within, value_tests};
ghost use Rattle.joint.specs.Told.{refusal_in};

use crate::refusals::Refusal;
use crate::{Loads, MOST_DOWELS, Member, Outline, Positions, Values};
use numbers::{is_coordinate, is_force};
use tables::Source;

// Codes of steel, service class and duration count from 1, the grain from 0.
const FIRST_CODE: usize = 1;

const LAST_STEEL: usize = 3;

const LAST_SERVICE_CLASS: usize = 3;

const LAST_DURATION: usize = 5;

const ALONG_X: usize = 0;

const ALONG_Y: usize = 1;

const LEAST_PLANES: usize = 1;

const MOST_PLANES: usize = 2;

// In tenths of a millimetre.
const LEAST_THICKNESS: usize = 200;

const MOST_THICKNESS: usize = 4000;

// In millimetres.
const LEAST_DIAMETER: usize = 6;

const MOST_DIAMETER: usize = 30;

// One call of std under the record's word, `between`, by which the definitions tell a limit. The limits of one part are
// joined by `&`: no field's test hides another's; of the positions N's comes first, as it says how many to test (docs/DECISIONS.md).
// The positions come last, and by `&&`: only they have a loop.
fn is_between(low: usize, high: usize, n: usize) -> bool
    ensures { result ≡ between low high n }
{
    (low..=high).contains(&n)
}

#[tactic(auto, unfolding(crate::specs::Refusal::member_within, crate::specs::Refusal::outline_within))]
fn member_within(table: Source, m: &Member) -> bool
    ensures { result ≡ member_within (table_of table.entry) m.now }
{
    let o = m.outline;
    table.is_class(m.class)
        & is_between(ALONG_X, ALONG_Y, m.grain as usize)
        & is_between(LEAST_THICKNESS, MOST_THICKNESS, m.thickness as usize)
        & (is_coordinate(o.x0) & is_coordinate(o.y0) & is_coordinate(o.x1) & is_coordinate(o.y1))
}

fn are_coordinates(l: &[i32]) -> bool
    ensures { result ≡ list_all coordinate l.now }
{
    l.iter().all(|z| is_coordinate(*z))
}

#[tactic(auto, using(crate::proofs::Columns::coordinates_are, crate::proofs::Accepted::between_high), unfolding(crate::specs::Refusal::positions_within))]
fn positions_within(p: &Positions) -> bool
    ensures { result ≡ positions_within p.now }
{
    is_between(1, MOST_DOWELS, p.n) && are_coordinates(&p.x[..p.n]) && are_coordinates(&p.y[..p.n])
}

#[tactic(auto, unfolding(crate::specs::Refusal::loads_within))]
fn loads_within(l: &Loads) -> bool
    ensures { result ≡ loads_within l.now }
{
    is_between(FIRST_CODE, LAST_SERVICE_CLASS, l.service_class as usize)
        & is_between(FIRST_CODE, LAST_DURATION, l.duration as usize)
        & is_force(l.fx)
        & is_force(l.fy)
}

#[tactic(auto, unfolding(crate::specs::Refusal::outline_empty))]
fn outline_empty(o: Outline) -> bool
    ensures { result ≡ outline_empty o }
{
    o.x1 <= o.x0 || o.y1 <= o.y0
}

#[tactic(auto, unfolding(crate::specs::Refusal::no_force))]
fn no_force(l: Loads) -> bool
    ensures { result ≡ no_force l }
{
    l.fx == 0 && l.fy == 0
}

// Every limit of refusal 7: a class is one that the table has.
#[tactic(auto, unfolding(crate::specs::Refusal::fields_within, crate::specs::Refusal::members_within, crate::specs::Refusal::dowel_within))]
fn fields_within(table: Source, v: &Values) -> bool
    ensures { result ≡ fields_within (table_of table.entry) v.now }
{
    is_between(LEAST_PLANES, MOST_PLANES, v.members.planes as usize)
        & member_within(table, &v.members.member1)
        & member_within(table, &v.members.member2)
        & (is_between(LEAST_DIAMETER, MOST_DIAMETER, v.dowel.diameter as usize)
            & is_between(FIRST_CODE, LAST_STEEL, v.dowel.steel as usize))
        & loads_within(&v.loads)
        && positions_within(&v.positions)
}

// Refusals 7 to 9: the first that values have, whether a record has them or a writer is handed them.
#[tactic(auto, unfolding(tables::specs::Tests::first_holding, crate::specs::Refusal::empty_outlines))]
pub fn check_values(table: Source, v: &Values) -> Result<(), Refusal>
    ensures { refusal_in result ≡ first_holding (value_tests (table_of table.entry) v.now) }
{
    let within = fields_within(table, v);
    let empty = outline_empty(v.members.member1.outline) | outline_empty(v.members.member2.outline);
    if !within {
        return Err(Refusal::FieldOutside);
    }
    if empty {
        return Err(Refusal::EmptyOutline);
    }
    if no_force(v.loads) {
        return Err(Refusal::NoForce);
    }
    Ok(())
}
