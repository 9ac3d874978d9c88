// What the judge of a record answers.

use crate::refusals::Rejection;

// The use in ten-thousandths, the capacity of a shear plane in newtons and the row share in ten-thousandths.
#[derive(Clone, Copy, PartialEq, Eq, Debug)]
pub struct Figures {
    pub usage: u64,
    pub capacity: u64,
    pub share: u64,
}

#[derive(Clone, Copy, PartialEq, Eq, Debug)]
pub enum Judgement {
    Fits(Figures),
    Overloaded(Figures),
    Refused(Rejection),
}
