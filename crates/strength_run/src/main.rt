// Runs the strength of shear planes whose figures are known: joint B of 01, Example 13-1 of 001, and planes worked out by hand.
#![tactic(auto)]

use std::io;
use strength::plane::{Plane, Timber};
use strength::{capacity, moment};

// C24 beside a dowel of 12 mm, 60 mm thick, the force along the grain.
const SIDE_OF_B: Timber = Timber {
    density: 350,
    k90: 1530,
    along: 1,
    total: 1,
    thickness: 600,
};

// Joint B: C24, d 12, S235, t1 60 mm, t2 80 mm, force along the grain: 7,441.033 N.
const JOINT_B: Plane = Plane {
    member1: SIDE_OF_B,
    member2: Timber {
        thickness: 800,
        ..SIDE_OF_B
    },
    diameter: 12,
    steel: 360,
    planes: 2,
};

// Joint B with t1 20 mm: the second term decides, 2,510.73 N.
const JOINT_B_THIN: Plane = Plane {
    member1: Timber {
        thickness: 200,
        ..SIDE_OF_B
    },
    ..JOINT_B
};

// GL28h beside a dowel of 16 mm, 80 mm thick, the force along the grain.
const MEMBER_OF_EXAMPLE: Timber = Timber {
    density: 425,
    k90: 1590,
    thickness: 800,
    ..SIDE_OF_B
};

// Example 13-1: GL28h, d 16, S235, t 80 mm, one shear plane: M = 145,930 Nmm, 13,445.6 N.
const EXAMPLE: Plane = Plane {
    member1: MEMBER_OF_EXAMPLE,
    member2: MEMBER_OF_EXAMPLE,
    diameter: 16,
    steel: 360,
    planes: 1,
};

// d 10, t1 50 mm, GL28h along x, C24 along y, one shear plane, S355, force (2, 3): s = 7/10 and R = 4,797 N exactly.
const RATIONAL_SECOND: Plane = Plane {
    member1: Timber {
        density: 425,
        k90: 1500,
        along: 4,
        total: 13,
        thickness: 500,
    },
    member2: Timber {
        density: 350,
        k90: 1500,
        along: 9,
        total: 13,
        thickness: 4000,
    },
    diameter: 10,
    steel: 510,
    planes: 1,
};

// C24 beside a dowel of 10 mm, 400 mm thick, the force along the grain.
const THICK: Timber = Timber {
    k90: 1500,
    thickness: 4000,
    ..SIDE_OF_B
};

// d 10, C24, t2 20 mm, two shear planes, force along the grain: R = 2,583 N exactly.
const RATIONAL_THIRD: Plane = Plane {
    member1: THICK,
    member2: Timber {
        thickness: 200,
        ..THICK
    },
    diameter: 10,
    steel: 360,
    planes: 2,
};

fn main(rt: HostRuntime) -> io::Result<()> {
    println!(rt; "{}", capacity::capacity_thousandths(JOINT_B))?;
    println!(rt; "{}", capacity::capacity(JOINT_B_THIN))?;
    println!(rt; "{}", moment::yield_moment(16, 360))?;
    println!(rt; "{}", capacity::capacity(EXAMPLE))?;
    println!(rt; "{}", capacity::capacity_thousandths(RATIONAL_SECOND))?;
    println!(rt; "{}", capacity::capacity_thousandths(RATIONAL_THIRD))
}
