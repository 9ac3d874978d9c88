// Laws about two records: no code, and nothing is called. What joins them is each entry's contract, which says which report a record gets
// (joint's `Reported`, negwishal's `Exported`).
#![tactic(auto)]
