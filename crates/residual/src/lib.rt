// R on arrays: the largest difference of a command from its held gradient step, unrounded.
#![tactic(auto)]

ghost use Rattle.std.specs.Prelude.{◌≡◌};
ghost use Rattle.optimum.specs.Optimum.{largest_n};
ghost use Rattle.residual.specs.Terms.{difference_of, difference_at, Small, Ready};

use array::Limits;

// What R takes but for M and the commands: the limits, and the linear terms undivided.
#[derive(Clone, Copy)]
pub struct ResidualTerms {
    pub limits: Limits,
    pub linear: [i64; 16],
    pub n: usize,
    pub b: u32,
}

// How far a command is from its gradient step, once that is held to the limits: in units of 2^-2b.
fn difference(step: i64, lower: i64, upper: i64, z: i64, b: u32) -> u64
    requires { Small b step lower upper z }
    ensures { result ≡ difference_of b step lower upper z }
{
    let f: i64 = 1 << b;
    let held = integer::clamp(lower * f, upper * f, step);
    (held - f * z).unsigned_abs()
}

// R: the largest difference.
pub fn residual(m: &[[i64; 16]; 16], t: ResidualTerms, z: &[i64; 16]) -> u64
    requires { Ready m.now t z.now }
    ensures { result ≡ largest_n (difference_at m.now t z.now) t.n }
{
    let mut r = 0u64;
    for i in 0..t.n {
        let step = dot::dot(&m[i], z, 0, t.n) - t.linear[i];
        r = r.max(difference(step, t.limits.lower[i], t.limits.upper[i], z[i], t.b));
    }
    r
}
