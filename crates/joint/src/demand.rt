// The use: how much of its capacity a joint's force takes, in ten-thousandths (01, 'Rows, share and use').
ghost use Rattle.std.specs.Prelude.{◌≡◌, ◌≤◌};
ghost use Rattle.joint.specs.Returned.{scaled_force_of, total_use_of, row_use_of, use_of, RowWithin, DemandWithin};

use group::member::Taken;
use strength::roots;

// Parts of a newton in which the length of the force is rounded up.
const PARTS: u64 = 1024;

const PARTS_SQUARED: u64 = 1048576;

// kmod in hundredths is a multiple of this.
const KMOD_STEP: u64 = 5;

// 130 in 130 g/(T h v), for twice T, the capacity in thousandths of a newton and the use in ten-thousandths: 130 · 2 · 10^3 · 10^4.
const BY_TOTAL: u64 = 2600000000;

// The same in 130 c n/(e T h v), for the share in ten-thousandths and h in steps: 130 · 2 · 10^3 · 10^4 · 10^4 / 5.
const BY_ROW: u64 = 5200000000000;

// What the use depends on: the squared force, what it takes of the members, twice the number of shear planes that count, kmod in hundredths, the
// capacity of a plane in thousandths of a newton. The definitions have a record of their own, with no fact about it.
#[derive(Clone, Copy)]
pub struct Demand {
    pub total: u64,
    pub member1: Taken,
    pub member2: Taken,
    pub planes2: u64,
    pub kmod: u64,
    pub capacity: u64,
    pub ghost within: { DemandWithin (record { total = total; member1 = member1; member2 = member2; planes2 = planes2; kmod = kmod; capacity = capacity }) },
}

// The force in parts of a newton, rounded up, from its square.
#[tactic(auto, using(strength::proofs::Greatest::square_root_is), unfolding(crate::specs::Returned::scaled_force_of))]
fn scaled_force(total: u64) -> u64
    requires { total ≤ 2000000000000 }
    ensures { result ≡ scaled_force_of total }
{
    roots::whole_square_root(PARTS_SQUARED * total) + 1
}

impl Demand {
    ghost use Rattle.joint.specs.Told.{demand_told};

    // The use by the whole force.
    #[tactic(auto, using(crate::proofs::UseSizes::scaled_small, crate::proofs::UseSizes::total_some, crate::proofs::Uses::ceiling_is), unfolding(crate::specs::Returned::total_use_of))]
    fn total_use(self) -> u64
        ensures { result ≡ total_use_of (demand_told self) }
    {
        let force = BY_TOTAL * scaled_force(self.total);
        force.div_ceil(PARTS * (self.planes2 * self.kmod) * self.capacity)
    }

    // The use by the force along one member in its rows.
    fn row_use(self, m: Taken) -> u64
        requires { RowWithin m }
        ensures { result ≡ row_use_of (demand_told self) m }
    {
        let force = BY_ROW * m.along;
        let carried = self.planes2 * (self.kmod / KMOD_STEP) * m.share * self.capacity;
        force.div_ceil(carried)
    }

    // The greatest of the three.
    #[tactic(auto, unfolding(crate::specs::Returned::use_of))]
    pub(crate) fn use_ten_thousandths(self) -> u64
        ensures { result ≡ use_of (demand_told self) }
    {
        let by_total = self.total_use();
        by_total
            .max(self.row_use(self.member1))
            .max(self.row_use(self.member2))
    }
}
