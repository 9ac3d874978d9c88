// The values that the strength of a shear plane depends on. Their limits, `MemberWithin` and `PlaneWithin`, are asked by the functions and are
// no ghost fields: `joint`'s definitions make planes of a record's values before it is known that they lie within.

// One member: density in kg/m³, k90 in thousandths, the squared force component along the grain and the whole
// squared force (cos²α = along/total), thickness in tenths of a millimetre.
#[derive(Clone, Copy)]
pub struct Timber {
    pub density: u64,
    pub k90: u64,
    pub along: u64,
    pub total: u64,
    pub thickness: u64,
}

// Members 1 (the side one) and 2, the dowel's diameter in mm, the steel's strength fu in N/mm², the number of shear planes.
#[derive(Clone, Copy)]
pub struct Plane {
    pub member1: Timber,
    pub member2: Timber,
    pub diameter: u64,
    pub steel: u64,
    pub planes: u64,
}
