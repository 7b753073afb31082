// The lowest and the highest sum of a row whose values are known within ranges. A negative factor takes the opposite end: so both sums together are the row times low + high, and they are apart by its magnitudes times high − low.
#![tactic(auto)]

ghost use Rattle.std.specs.Prelude.{pos};
ghost use Rattle.array.specs.Arrays.{Filled};
ghost use Rattle.range_sums.specs.Ends.{sum_at, width_at, Ranged, RowReady, RowEndsOf};

// The lowest and the highest of what is known within a range: of a row's sum, or of the numbers in an array, one for each command.
#[derive(Clone, Copy)]
pub struct Ends<T> {
    pub low: T,
    pub high: T,
}

// Low + high of the first n values.
pub fn sums_of(lows: &[i64; 16], highs: &[i64; 16], n: usize) -> [i64; 16]
    requires { Ranged lows.now highs.now n }
    ensures { Filled (pos 0) n (sum_at lows.now highs.now) result }
{
    let mut r = [0; 16];
    for j in 0..n {
        r[j] = lows[j] + highs[j];
    }
    r
}

// High − low of the first n values.
pub fn widths_of(lows: &[i64; 16], highs: &[i64; 16], n: usize) -> [u64; 16]
    requires { Ranged lows.now highs.now n }
    ensures { Filled 0 n (width_at lows.now highs.now) result }
{
    let mut r = [0; 16];
    for j in 0..n {
        r[j] = (highs[j] - lows[j]).unsigned_abs();
    }
    r
}

// Both sums, undivided: half of what they are together, less and plus half of what they are apart.
pub fn row_ends(
    r: &[i64; 16],
    magnitudes: &[u64; 16],
    sums: &[i64; 16],
    widths: &[u64; 16],
    n: usize,
) -> Ends<i64>
    requires { RowReady r.now magnitudes.now sums.now widths.now n }
    ensures { RowEndsOf r.now magnitudes.now sums.now widths.now n result }
{
    let together = dot::dot(r, sums, 0, n);
    let apart = weight::weight(magnitudes, widths, n) as i64;
    Ends {
        low: integer::floor_div(together - apart, 1),
        high: integer::floor_div(together + apart, 1),
    }
}
