// The sum of a row: of its products with a vector, undivided.
#![tactic(auto)]

ghost use Rattle.std.specs.Prelude.{◌≡◌, ◌+◌};
ghost use Rattle.gradient.specs.Index.{sum_z, product_at};
ghost use Rattle.dot.specs.Sums.{input_term, Summable, RowSummable};

// Term i, a product.
fn product(r: &[i64; 16], y: &[i64; 16], i: usize) -> i64
    requires { Summable r.now y.now (i + 1) }
    ensures { result ≡ product_at r.now y.now i }
{
    r[i] * y[i]
}

// The sum of n terms from a on, one a turn.
fn rest(r: &[i64; 16], y: &[i64; 16], a: usize, n: usize) -> i64
    requires { Summable r.now y.now (a + n) }
    ensures { result ≡ sum_z (product_at r.now y.now) a n }
{
    let mut x = 0i64;
    for k in 0..n {
        x += product(r, y, a + k);
    }
    x
}

// The sum of n terms from a on, four a turn and then the rest: of a loop of one signed product of 64 bits a turn the compiler makes slow vector code.
pub fn dot(r: &[i64; 16], y: &[i64; 16], a: usize, n: usize) -> i64
    requires { Summable r.now y.now (a + n) }
    ensures { result ≡ sum_z (product_at r.now y.now) a n }
{
    let mut x = 0i64;
    let mut i = 0;
    while i + 4 <= n {
        x += product(r, y, a + i)
            + product(r, y, a + i + 1)
            + product(r, y, a + i + 2)
            + product(r, y, a + i + 3);
        i += 4;
    }
    x + rest(r, y, a + i, n % 4)
}

// The sum of a row of the image, which starts at the part's front, times x.
pub fn row_sum(row: &[u8], x: &[i64; 16], n: usize) -> i64
    requires { RowSummable row.now x.now n }
    ensures { result ≡ sum_z (input_term row.now x.now) 0 n }
{
    let r = array::words_of(row, n);
    dot(&r, x, 0, n)
}
