// Rows of dowels in a member and the share of a row that counts, exact (01, 'Rows, share and use'; 02, A3).
#![tactic(auto)]

pub mod member;
mod order;
mod rows;
pub mod share;
