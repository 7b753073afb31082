// A crate of mathematics: a drive as a value in specs/, and in proofs/ what holds of every run of calls on it. It has one trivial function.
#![tactic(auto)]

pub fn unit() -> u8 {
    0
}
