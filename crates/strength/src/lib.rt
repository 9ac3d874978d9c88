// Bearing and roots: the strength of a shear plane (01, 'Strength of a shear plane').
#![tactic(auto)]

pub mod capacity;
mod load;
pub mod moment;
pub mod plane;
pub mod roots;
mod terms;
