// The drill plan: refusals 10 to 12, by crate `spacing`.
ghost use Rattle.std.specs.Prelude.{◌≡◌};
ghost use Rattle.spacing.specs.Spacing.{Given};
ghost use Rattle.spacing.specs.Verdict.{told};
ghost use Rattle.joint.specs.Refusal.{edge_rule, spaced, drill_fault};
ghost use Rattle.joint.specs.Stage.{IsPlanOf};

use crate::{Member, Values};
use spacing::edge::EdgeRule;
use spacing::verdict;
use spacing::verdict::Fault;
use spacing::view::{Piece, Plan};

// The first version whose edges are checked by Eurocode; later versions build on it (02, A7).
const EUROCODE_EDGES: u16 = 2;

// The table that a record's version names.
fn edge_rule(version: u16) -> EdgeRule
    ensures { result ≡ edge_rule version }
{
    if EUROCODE_EDGES <= version {
        EdgeRule::Eurocode
    } else {
        EdgeRule::Table8
    }
}

// A member as the spacing rules take it.
impl From<Member> for Piece {
    ghost from_gives = { λ m piece. piece ≡ spaced m };

    fn from(m: Member) -> Piece {
        Piece {
            grain: m.grain,
            x0: m.outline.x0,
            y0: m.outline.y0,
            x1: m.outline.x1,
            y1: m.outline.y1,
        }
    }
}

// The drill plan of values that passed refusals 1 to 9.
pub(crate) fn plan_of(v: &Values) -> Plan
    requires { Given v.now.dowel.diameter v.now.loads.fx v.now.loads.fy v.now.positions.n }
    ensures { IsPlanOf v.now result }
{
    Plan {
        diameter: v.dowel.diameter as u64,
        fx: v.loads.fx,
        fy: v.loads.fy,
        x: v.positions.x,
        y: v.positions.y,
        count: v.positions.n,
    }
}

// The first fault of values, by their drill plan.
#[tactic(auto, unfolding(crate::specs::Refusal::drill_fault))]
pub(crate) fn check(v: &Values, plan: Plan) -> Result<(), Fault>
    requires { IsPlanOf v.now plan }
    ensures { told result ≡ drill_fault v.now }
{
    verdict::spacing_verdict(
        edge_rule(v.version),
        v.members.member1.into(),
        v.members.member2.into(),
        plan,
    )
}
