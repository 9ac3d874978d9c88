// By which table the edges of a member are checked. Pairs and ends are checked by 000, Table 8, whichever it is.

#[derive(Clone, Copy, PartialEq, Eq, Debug)]
pub enum EdgeRule {
    // 000, Table 8 (01): both edges 3d.
    Table8,
    // EN 1995-1-1, Table 8.5 (02, A7): a loaded edge (2 + 2 sin α) d and at least 3d, the other 3d.
    Eurocode,
}
