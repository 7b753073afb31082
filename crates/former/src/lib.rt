// A crate of mathematics: in specs/ the definitions of today over a version, which may lack request 1, 3 or 7, and what document 02 says of what
// was before, in proofs/ its laws. It has one trivial function.
#![tactic(auto)]

pub fn unit() -> u8 {
    0
}
