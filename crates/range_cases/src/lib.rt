// Solves with ranges, worked out by hand: the table is in specs/, and a computed check of it in proofs/. It has one trivial function.
#![tactic(auto)]

pub fn unit() -> u8 {
    0
}
