// A crate of mathematics: in specs/ what a page says, and in proofs/ that it says so, and that filing it in the sheet's place loses nothing. It
// has one trivial function.
#![tactic(auto)]

pub fn unit() -> u8 {
    0
}
