// The spacing verdict of a member and of both members (01, 'Who causes which refusal', 10 to 12).
ghost use Rattle.std.specs.Prelude.{◌≡◌, ◌≤◌};
ghost use Rattle.spacing.specs.Verdict.{
  number_of,
  fault_of,
  told,
  pair_fault,
  end_fault,
  edge_fault,
  verdict_in,
  member_verdict,
  spacing_verdict,
};

use crate::edge::EdgeRule;
use crate::view::{Measured, Piece, Plan, Which};

// A refusal with its place, dowels counted from 1.
#[derive(Clone, Copy, PartialEq, Eq, Debug)]
pub enum Fault {
    DowelsTooClose {
        member: Which,
        first: u8,
        second: u8,
    },
    EndTooNear {
        member: Which,
        dowel: u8,
    },
    EdgeTooNear {
        member: Which,
        dowel: u8,
    },
}

impl Fault {
    // The number of the refusal.
    pub fn number(self) -> u8
        ensures { result ≡ (fault_of self).number }
    {
        match self {
            Fault::DowelsTooClose { .. } => 10,
            Fault::EndTooNear { .. } => 11,
            Fault::EdgeTooNear { .. } => 12,
        }
    }

    pub fn member(self) -> u8
        ensures { result ≡ (fault_of self).member }
    {
        match self {
            Fault::DowelsTooClose { member, .. }
            | Fault::EndTooNear { member, .. }
            | Fault::EdgeTooNear { member, .. } => member.number(),
        }
    }

    // The dowel that is named, or the first of two.
    pub fn first(self) -> u8
        ensures { result ≡ (fault_of self).first }
    {
        match self {
            Fault::DowelsTooClose { first, .. } => first,
            Fault::EndTooNear { dowel, .. } | Fault::EdgeTooNear { dowel, .. } => dowel,
        }
    }

    // The second of two dowels, else 0: so a place is told (01), and an `Option` would be turned into that by each caller.
    pub fn second(self) -> u8
        ensures { result ≡ (fault_of self).second }
    {
        match self {
            Fault::DowelsTooClose { second, .. } => second,
            Fault::EndTooNear { .. } | Fault::EdgeTooNear { .. } => 0,
        }
    }
}

impl Measured {
    // Refusal 10: two dowels too close.
    fn pair_fault(&self) -> Result<(), Fault>
        ensures { let m = self.now in told result ≡ pair_fault (number_of m.member) m.view.frame m.diameter m.view.along m.view.across m.count }
    {
        let least = self.least();
        match self.first_close(least) {
            None => Ok(()),
            Some((i, j)) => Err(Fault::DowelsTooClose {
                member: self.member,
                first: (i + 1) as u8,
                second: (j + 1) as u8,
            }),
        }
    }

    // Refusal 11: an end too near.
    fn end_fault(&self) -> Result<(), Fault>
        ensures { let m = self.now in told result ≡ end_fault (number_of m.member) m.view.frame m.diameter m.view.along m.count }
    {
        let ends = self.ends();
        match self.first_outside(&self.view.along, ends) {
            None => Ok(()),
            Some(i) => Err(Fault::EndTooNear {
                member: self.member,
                dowel: (i + 1) as u8,
            }),
        }
    }

    // Refusal 12: an edge too near. One function for both would have to be told bounds, list and case; what they share is `first_outside`.
    fn edge_fault(&self) -> Result<(), Fault>
        ensures { let m = self.now in told result ≡ edge_fault m.rule (number_of m.member) m.view.frame m.diameter m.view.across m.count }
    {
        let edges = self.edges();
        match self.first_outside(&self.view.across, edges) {
            None => Ok(()),
            Some(i) => Err(Fault::EdgeTooNear {
                member: self.member,
                dowel: (i + 1) as u8,
            }),
        }
    }

    // The first fault in the order 10, 11, 12.
    fn verdict(&self) -> Result<(), Fault>
        ensures { let m = self.now in told result ≡ verdict_in m.rule (number_of m.member) m.view.frame m.diameter m.view.along m.view.across m.count }
    {
        self.pair_fault()?;
        self.end_fault()?;
        self.edge_fault()
    }
}

// The verdict of a member by its view.
fn viewed(rule: EdgeRule, which: Which, m: Piece, plan: Plan) -> Result<(), Fault>
    ensures { told result ≡ member_verdict rule which m plan.diameter plan.fx plan.fy plan.x plan.y plan.count }
{
    Measured {
        rule,
        member: which,
        view: plan.view(which, m),
        diameter: plan.diameter,
        count: plan.count,
    }
    .verdict()
}

// The verdict of both members, member 1 first. Rule, members and plan stay four parameters: callers have them apart, and a struct of them would
// be made there to be taken apart here.
pub fn spacing_verdict(
    rule: EdgeRule,
    member1: Piece,
    member2: Piece,
    plan: Plan,
) -> Result<(), Fault>
    ensures { told result ≡ spacing_verdict rule member1 member2 plan.diameter plan.fx plan.fy plan.x plan.y plan.count }
{
    viewed(rule, Which::Member1, member1, plan)?;
    viewed(rule, Which::Member2, member2, plan)
}
