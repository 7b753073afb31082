// Check 8 of a row of H, its symmetry, and what 9 to 11 take of it: its margin and its total.
#![tactic(auto)]

ghost use Rattle.std.specs.Prelude.{◌≡◌, ℕ, ℤ, ◌*◌, ◌^◌, ◌≤◌, ◌<◌, length, pos, nat_abs};
ghost use Rattle.dominance.specs.Others.{others_in, Answers};
ghost use Rattle.image.specs.Sizes.{command_count};
ghost use Rattle.image.specs.Layout.{cost_at};
ghost use Rattle.interface.specs.Tables.{others_of, margin_at, total_at, symmetry_test};

use image::Image;

// The margin and the total of a row.
#[derive(Clone, Copy)]
pub struct Disc {
    pub margin: i64,
    pub total: i64,
}

// 2^b.
pub fn power(b: u32) -> i64
    requires { b ≤ 20 }
    ensures { (result ≡ pos (2 ^ b)) × (nat_abs result ≤ 2 ^ 20) }
{
    1 << b
}

// Entry j of row i of H.
pub fn cost_at(image: &Image, i: usize, j: usize) -> i64
    requires { (i < command_count image.now.sizes) × (j < command_count image.now.sizes) }
    ensures { (result ≡ cost_at image.now.sizes image.now.bytes.now i j) × (nat_abs result ≤ 2 ^ 31) }
{
    word::word_at(image.cost_row(i), 4 * j)
}

// The sum of the magnitudes of n entries but entry i, as check 9 takes it of a row of H and check 21 of a row of a remainder.
pub fn others<F: Fn(usize) -> i64>(i: usize, n: usize, entry: F) -> u64
    requires few { n ≤ 16 }
    requires callable { (j : ℕ) → j < n → F.pre entry j }
    requires small { (j : ℕ) (x : ℤ) → j < n → F.post entry j x → nat_abs x ≤ 2 ^ 53 }
    ensures sum { (row : ℕ → ℤ) → Answers (F.post entry) row n → result ≡ others_in row i n }
    ensures most { result ≤ n * 2 ^ 53 }
{
    let mut sum = 0;
    for j in 0..n {
        if j != i {
            sum += entry(j).unsigned_abs();
        }
    }
    sum
}

// That sum for row i of H, from the part of the image that starts at that row.
fn row_others(row: &[u8], i: usize, n: usize) -> u64
    requires { (n ≤ 16) × (4 * n ≤ length row.now) }
    ensures { (result ≡ others_of row.now i n) × (result ≤ 2 ^ 35) }
{
    others(i, n, |j| word::word_at(row, 4 * j))
}

// The ends of row i's Gershgorin disc: its diagonal less the others, and plus them.
pub fn disc_of(image: &Image, i: usize) -> Disc
    requires { i < command_count image.now.sizes }
    ensures { (result.margin ≡ margin_at image.now.sizes image.now.bytes.now i) × (result.total ≡ total_at image.now.sizes image.now.bytes.now i) }
{
    let row = image.cost_row(i);
    let diagonal = word::word_at(row, 4 * i);
    let radius = row_others(row, i, image.sizes.command_count()) as i64;
    Disc {
        margin: diagonal - radius,
        total: diagonal + radius,
    }
}

// Whether row i of H is its column i.
pub fn is_symmetric(image: &Image, i: usize) -> bool
    requires { i < command_count image.now.sizes }
    ensures { result ≡ symmetry_test image.now.sizes image.now.bytes.now i }
{
    (0..image.sizes.command_count()).all(|j| cost_at(image, i, j) == cost_at(image, j, i))
}
