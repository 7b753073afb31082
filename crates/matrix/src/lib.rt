// M of an image as an array of rows, and the magnitudes of its entries.
#![tactic(auto)]

ghost use Rattle.std.specs.Prelude.{◌*◌, ◌≤◌, [], length, get_or, pos, nat_abs};
ghost use Rattle.image.specs.Sizes.{Whole, command_count};
ghost use Rattle.image.specs.Layout.{entry_of, entry_at};
ghost use Rattle.array.specs.Arrays.{Filled, Tabled, WordsTo, RowsTo};

use image::Image;

// Row i of M, from the part of the image that starts at that row of H.
fn matrix_row(row: &[u8], i: usize, n: usize, b: u32) -> [i64; 16]
    requires { (n ≤ 16) × ((b ≤ 20) × (4 * n ≤ length row.now)) }
    ensures { Filled (pos 0) n (entry_of b row.now i) result }
{
    let mut r = [0; 16];
    for j in 0..n {
        r[j] = image::entry(row, b, i, j);
    }
    r
}

// M: n rows of n words.
#[inline(never)]
pub fn matrix(image: &Image) -> [[i64; 16]; 16]
    ensures { Tabled (pos 0) (command_count image.now.sizes) (entry_at image.now.sizes image.now.bytes.now) result }
{
    let n = image.sizes.command_count();
    let mut m = [[0; 16]; 16];
    for i in 0..n {
        m[i] = matrix_row(image.cost_row(i), i, n, image.sizes.b);
    }
    m
}

// The magnitudes of a row of M.
pub fn magnitude_row(row: &[i64; 16], n: usize) -> [u64; 16]
    requires { (n ≤ 16) × WordsTo n row.now }
    ensures { Filled 0 n (λ j. nat_abs (get_or row.now j (pos 0))) result }
{
    let mut r = [0; 16];
    for j in 0..n {
        r[j] = row[j].unsigned_abs();
    }
    r
}

// |M|, which the error bounds take: made once, and not anew in each iteration.
#[inline(never)]
pub fn magnitudes_of(m: &[[i64; 16]; 16], n: usize) -> [[u64; 16]; 16]
    requires { (n ≤ 16) × RowsTo n m.now }
    ensures { Tabled 0 n (λ i j. nat_abs (get_or (get_or m.now i []) j (pos 0))) result }
{
    let mut r = [[0; 16]; 16];
    for i in 0..n {
        r[i] = magnitude_row(&m[i], n);
    }
    r
}
