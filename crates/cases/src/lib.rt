// Document 01's starred cases: the table is in specs/, and one computed check of it in proofs/. It has one trivial function.
#![tactic(auto)]

pub fn unit() -> u8 {
    0
}
