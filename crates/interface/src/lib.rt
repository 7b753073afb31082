// A crate of mathematics: the calls on an image as definitions in specs/, and in proofs/ demand 3 on bytes. It has one trivial function.
#![tactic(auto)]

pub fn unit() -> u8 {
    0
}
