// Each irrational limit as the least whole number of tenths that passes, found once for the pairs and for each end and edge of a member.
ghost use Rattle.std.specs.Prelude.{◌≡◌, ◌≤◌, List, ℤ, pos, ◌+ℤ◌, ◌-ℤ◌};
ghost use Rattle.spacing.specs.Spacing.{
  square,
  squared_force,
  too_close,
  end_too_near,
  edge_too_near,
};
ghost use Rattle.spacing.specs.Limits.{
  Scale,
  LeastPart,
  PairLimit,
  EndLimit,
  EdgeLimit,
  close_by,
  outside,
};

use crate::edge::EdgeRule;
use crate::force::{square, squared_force};
use crate::view::Measured;
use strength::roots;

// Table 8 in tenths of a millimetre for each millimetre of d: 3d between dowels, to an end and to an edge.
const APART: u64 = 30;

// 2d cos α more between dowels along the grain.
const APART_ALONG: u64 = 20;

// 7d to a loaded end, 7d sin α to another.
const END: u64 = 70;

// 80 mm to a loaded end, in tenths.
const LOADED_END: u64 = 800;

// By Eurocode 2d + 2d sin α to a loaded edge.
const LOADED_EDGE: u64 = 20;

// The least distances of two dowels, of which they are to keep one.
#[derive(Clone, Copy)]
pub struct Least {
    pub along: u64,
    pub across: u64,
}

// The least and the greatest coordinate that pass, between two ends or two edges. As i64: up to 2,100 tenths inwards from an outline may lie past
// an i32.
#[derive(Clone, Copy)]
pub struct Bounds {
    pub least: i64,
    pub greatest: i64,
}

// The bounds between two sides, by the least distance from each.
fn between(low: i32, high: i32, under: u64, over: u64) -> Bounds
    requires { (under ≤ 2100) × (over ≤ 2100) }
    ensures { (result.least ≡ low +ℤ pos under) × (result.greatest ≡ high -ℤ pos over) }
{
    Bounds {
        least: low as i64 + under as i64,
        greatest: high as i64 - over as i64,
    }
}

// The least e with k² part ≤ e² total: k times the root of part/total, rounded up.
fn least_part(k: u64, part: u64, total: u64) -> u64
    requires { Scale k part total }
    ensures { LeastPart k part total result }
{
    let whole = k * k * part;
    if whole == 0 {
        return 0;
    }
    roots::whole_square_root((whole - 1) / total) + 1
}

impl Measured {
    // The least distance of two dowels along the grain: (3 + 2 cos α) d.
    fn between_dowels(&self) -> u64
        ensures { let v = self.now.view.frame in PairLimit self.now.diameter (square v.force) (squared_force v.force v.sideways) result }
    {
        let v = self.view.frame;
        let d = self.diameter;
        let total = squared_force(v.force, v.sideways);
        APART * d + least_part(APART_ALONG * d, square(v.force), total)
    }

    // The least distance to an end: 7d and 80 mm where it is loaded, else 7d sin α and 3d. `loaded` is handed on as it stands: two functions
    // would repeat the call at each end.
    fn from_end(&self, loaded: bool) -> u64
        ensures { let m = self.now in EndLimit m.view.frame m.diameter loaded result }
    {
        let d = self.diameter;
        if loaded {
            return (END * d).max(LOADED_END);
        }
        let v = self.view.frame;
        let total = squared_force(v.force, v.sideways);
        least_part(END * d, square(v.sideways), total).max(APART * d)
    }

    // The least distance to an edge: 3d, and by Eurocode 2d + 2d sin α too where it is loaded.
    fn from_edge(&self, loaded: bool) -> u64
        ensures { let m = self.now in EdgeLimit m.rule m.view.frame m.diameter loaded result }
    {
        let d = self.diameter;
        let apart = APART * d;
        if !loaded {
            return apart;
        }
        match self.rule {
            EdgeRule::Table8 => apart,
            EdgeRule::Eurocode => {
                let v = self.view.frame;
                let total = squared_force(v.force, v.sideways);
                let sideways = least_part(LOADED_EDGE * d, square(v.sideways), total);
                (LOADED_EDGE * d + sideways).max(apart)
            }
        }
    }

    // Between two dowels of a member.
    pub(crate) fn least(&self) -> Least
        ensures { let m = self.now in (a b : List ℤ) → close_by result.along result.across a b ≡ too_close m.view.frame m.diameter a b }
    {
        Least {
            along: self.between_dowels(),
            across: APART * self.diameter,
        }
    }

    // Between the ends of a member.
    pub(crate) fn ends(&self) -> Bounds
        ensures { let m = self.now in (a : List ℤ) → outside result.least result.greatest a ≡ end_too_near m.view.frame m.diameter a }
    {
        let v = self.view.frame;
        between(
            v.low,
            v.high,
            self.from_end(v.force < 0),
            self.from_end(v.force > 0),
        )
    }

    // Between its edges.
    pub(crate) fn edges(&self) -> Bounds
        ensures { let m = self.now in (b : List ℤ) → outside result.least result.greatest b ≡ edge_too_near m.rule m.view.frame m.diameter b }
    {
        let v = self.view.frame;
        between(
            v.left,
            v.right,
            self.from_edge(v.sideways < 0),
            self.from_edge(v.sideways > 0),
        )
    }
}
