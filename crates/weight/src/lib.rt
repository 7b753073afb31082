// The sum of a row of |M| times the error bounds of y.
#![tactic(auto)]

ghost use Rattle.std.specs.Prelude.{◌≡◌, ◌+◌, ◌^◌, ◌<◌};
ghost use Rattle.weight.specs.Sums.{term_at, weight_to, Weighable};

// x itself, which is below 2^32. So the compiler sees factors of 32 bits, and takes two products by one instruction.
fn low(x: u64) -> u64
    requires { x < 2 ^ 32 }
    ensures { result ≡ x }
{
    x % 4294967296
}

// Term j, a product.
#[tactic(auto, unfolding(crate::specs::Sums::term_at))]
fn term(r: &[u64; 16], q: &[u64; 16], j: usize) -> u64
    requires { Weighable r.now q.now (j + 1) }
    ensures { result ≡ term_at r.now q.now j }
{
    low(r[j]) * low(q[j])
}

// The sum of n terms from a on, one a turn.
#[tactic(auto, using(crate::proofs::Sums::part))]
fn rest(r: &[u64; 16], q: &[u64; 16], a: usize, n: usize) -> u64
    requires { Weighable r.now q.now (a + n) }
    ensures { weight_to r.now q.now a + result ≡ weight_to r.now q.now (a + n) }
{
    let mut w = 0u64;
    for k in 0..n {
        w += term(r, q, a + k);
    }
    w
}

// The sum of the first n terms, four a turn and then the rest. The even terms and the odd ones are added apart: so the compiler keeps
// the two sums side by side, as the products of two pairs are.
#[tactic(auto, using(crate::proofs::Sums::part))]
pub fn weight(r: &[u64; 16], q: &[u64; 16], n: usize) -> u64
    requires { Weighable r.now q.now n }
    ensures { result ≡ weight_to r.now q.now n }
{
    let mut even = 0u64;
    let mut odd = 0u64;
    let mut j = 0;
    while j + 4 <= n {
        even += term(r, q, j) + term(r, q, j + 2);
        odd += term(r, q, j + 1) + term(r, q, j + 3);
        j += 4;
    }
    even + odd + rest(r, q, j, n % 4)
}
