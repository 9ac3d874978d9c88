// Searches through the dowels, by comparisons with whole limits only. Dowels are counted from 0.
ghost use Rattle.std.specs.Prelude.{◌≡◌, ◌<◌, ◌≤◌};
ghost use Rattle.spacing.specs.Search.{FirstIs, PairIs, first_from, partner};
ghost use Rattle.spacing.specs.Limits.{close_by, past, outside};

use crate::limit::{Bounds, Least};
use crate::view::Measured;

impl Least {
    // Whether dowels i and j are nearer than both limits.
    fn broken(self, a: &[i32; 64], b: &[i32; 64], i: usize, j: usize) -> bool
        requires { (i < 64) × (j < 64) }
        ensures { result ≡ close_by self.along self.across a.now b.now i j }
    {
        (a[i].abs_diff(a[j]) as u64) < self.along && (b[i].abs_diff(b[j]) as u64) < self.across
    }
}

impl Bounds {
    // Whether a coordinate lies below the least or above the greatest that passes.
    fn leaves_out(self, z: i32) -> bool
        ensures { result ≡ past self.least self.greatest z }
    {
        !(self.least..=self.greatest).contains(&(z as i64))
    }
}

impl Measured {
    // The first dowel after i that is too close to i.
    fn partner(&self, i: usize, least: Least) -> Option<usize>
        requires { i < self.now.count }
        ensures { let m = self.now in FirstIs result (partner (close_by least.along least.across m.view.along m.view.across) m.count i) m.count }
    {
        let v = &self.view;
        (i + 1..self.count).find(|j| least.broken(&v.along, &v.across, i, *j))
    }

    // The first two dowels that are too close.
    pub(crate) fn first_close(&self, least: Least) -> Option<(usize, usize)>
        ensures { let m = self.now in PairIs result (close_by least.along least.across m.view.along m.view.across) m.count }
    {
        for i in 0..self.count {
            if let Some(j) = self.partner(i, least) {
                return Some((i, j));
            }
        }
        None
    }

    // The first dowel that lies too near to the low or the high side, or outside, by its coordinates along or across.
    pub(crate) fn first_outside(&self, v: &[i32; 64], bounds: Bounds) -> Option<usize>
        ensures { let n = self.now.count in FirstIs result (first_from (outside bounds.least bounds.greatest v.now) 0 n) n }
    {
        (0..self.count).find(|i| bounds.leaves_out(v[*i]))
    }
}
