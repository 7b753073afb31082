// Runs of calls on a drive: the tables are in specs/, and a computed check of each in proofs/. It has one trivial function.
#![tactic(auto)]

pub fn unit() -> u8 {
    0
}
