// Spacing of dowels (000, Table 8), exact (01, 'Spacing'); the edges by EN 1995-1-1, Table 8.5, too (02, A7).
#![tactic(auto)]

pub mod edge;
pub mod force;
mod limit;
mod scan;
pub mod verdict;
pub mod view;
