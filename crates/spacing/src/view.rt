// What a member measures along and across its grain: 'along' is decided here and nowhere else.
ghost use Rattle.std.specs.Prelude.{◌≡◌, ◌≤◌, nat_abs};
ghost use Rattle.spacing.specs.Spacing.{force_in, view_of, Given};
ghost use Rattle.spacing.specs.Verdict.{number_of};

use crate::edge::EdgeRule;

// The dowels put the force into member 2, and its opposite into member 1.
#[derive(Clone, Copy, PartialEq, Eq, Debug)]
pub enum Which {
    Member1 = 1,
    Member2 = 2,
}

// A member's grain (0 along x, 1 along y) and outline, in tenths. The grain stays a u8, since an enum would ask more of callers.
#[derive(Clone, Copy)]
pub struct Piece {
    pub grain: u8,
    pub x0: i32,
    pub y0: i32,
    pub x1: i32,
    pub y1: i32,
}

// The diameter in mm, the force into member 2 in N, and the first `count` places of dowels, in tenths. Two arrays by value, as document 01
// names them, and their number beside them, since there is no heap.
#[derive(Clone, Copy)]
pub struct Plan {
    pub diameter: u64,
    pub fx: i32,
    pub fy: i32,
    pub x: [i32; 64],
    pub y: [i32; 64],
    pub count: usize,
    pub ghost given: { Given diameter fx fy count },
}

// The two ends and the two edges of a member, in tenths, and the components of the force in it, in N.
#[derive(Clone, Copy)]
pub struct Frame {
    pub low: i32,
    pub high: i32,
    pub left: i32,
    pub right: i32,
    pub force: i32,
    pub sideways: i32,
}

// A member's frame, and the dowels' coordinates along and across its grain: the plan's two arrays, as document 01 names them.
#[derive(Clone, Copy)]
pub struct View {
    pub frame: Frame,
    pub along: [i32; 64],
    pub across: [i32; 64],
}

// A member as the searches take it: the rule of its edges, how a place names it, what it measures, and the diameter and the number of the
// dowels.
#[derive(Clone, Copy)]
pub(crate) struct Measured {
    pub rule: EdgeRule,
    pub member: Which,
    pub view: View,
    pub diameter: u64,
    pub count: usize,
    pub ghost given: { Given diameter view.frame.force view.frame.sideways count },
}

impl Which {
    // How a place names a member.
    pub fn number(self) -> u8
        ensures { result ≡ number_of self }
    {
        self as u8
    }

    // A component of the force in a member.
    fn force_in(self, f: i32) -> i32
        requires { nat_abs f ≤ 1000000 }
        ensures { result ≡ force_in self f }
    {
        match self {
            Which::Member1 => 0 - f,
            Which::Member2 => f,
        }
    }
}

impl Plan {
    // What a member measures of it.
    pub fn view(self, which: Which, m: Piece) -> View
        ensures { result ≡ view_of which m self.fx self.fy self.x self.y }
    {
        view_of(which, m, self.fx, self.fy, self.x, self.y)
    }
}

// Six parameters stay for callers elsewhere: a `Plan` would ask more of them, its diameter, its count and some force.
pub fn view_of(which: Which, m: Piece, fx: i32, fy: i32, x: [i32; 64], y: [i32; 64]) -> View
    requires { (nat_abs fx ≤ 1000000) × (nat_abs fy ≤ 1000000) }
    ensures { result ≡ view_of which m fx fy x y }
{
    let by_x = which.force_in(fx);
    let by_y = which.force_in(fy);
    if m.grain == 0 {
        return View {
            frame: Frame {
                low: m.x0,
                high: m.x1,
                left: m.y0,
                right: m.y1,
                force: by_x,
                sideways: by_y,
            },
            along: x,
            across: y,
        };
    }
    View {
        frame: Frame {
            low: m.y0,
            high: m.y1,
            left: m.x0,
            right: m.x1,
            force: by_y,
            sideways: by_x,
        },
        along: y,
        across: x,
    }
}
