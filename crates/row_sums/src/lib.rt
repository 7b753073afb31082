// The sums of a row: those of A and B of 12 before they are divided.
#![tactic(auto)]

ghost use Rattle.std.specs.Prelude.{◌≡◌, ◌+◌, ◌*◌, ◌^◌, ◌≤◌, ◌<◌, ℕ, length, min, nat_abs};
ghost use Rattle.gradient.specs.Index.{sum_n};
ghost use Rattle.image.specs.Sizes.{Whole, command_count, input_count};
ghost use Rattle.image.specs.Layout.{cost_row, gain_row};
ghost use Rattle.row_sums.specs.Terms.{range_term, gain_term, Answers, RangesReady, RangesY};

use image::{Image, Input};

// Y of every command.
pub fn ranges_y(image: &Image) -> [u64; 16]
    ensures { RangesY image.now.sizes image.now.bytes.now result }
{
    let mut y = [0; 16];
    for k in 0..image.sizes.command_count() {
        y[k] = magnitudes::range_y(image, k);
    }
    y
}

// The sum of count terms, capped: of 16 terms it may pass 64 bits.
fn sum_terms<F: Fn(usize) -> u64>(count: usize, cap: u64, term: F) -> u64
    requires callable { (j : ℕ) → j < count → F.pre term j }
    requires small { (j x : ℕ) → j < count → F.post term j x → x ≤ 2 ^ 63 }
    requires capped { cap ≤ 2 ^ 52 }
    ensures { (terms : ℕ → ℕ) → Answers (F.post term) terms count → result ≡ min (sum_n terms count) cap }
{
    let mut s: u64 = 0;
    for j in 0..count {
        s = (s + term(j)).min(cap);
    }
    s
}

// The sum of A of row i, capped, from the part of the image that starts at that row.
#[tactic(auto, using(crate::proofs::Rows::held_most, crate::proofs::Rows::product_most))]
fn row_range_sum(row: &[u8], image: &Image, y: &[u64; 16], i: usize, cap: u64) -> u64
    requires ready { (RangesReady image.now.sizes image.now.bytes.now y.now × (i < command_count image.now.sizes)) × (cap ≤ 2 ^ 52) }
    requires part { (row.now ≡ cost_row image.now.sizes image.now.bytes.now i) × (4 * command_count image.now.sizes ≤ length row.now) }
    ensures { result ≡ min (sum_n (range_term image.now.sizes image.now.bytes.now i) (command_count image.now.sizes)) cap }
{
    sum_terms(
        image.sizes.command_count(),
        cap,
        |j| image::entry(row, image.sizes.b, i, j).unsigned_abs() * y[j],
    )
}

// The sum of A of row i, capped, with every Y in y.
pub fn range_sum(image: &Image, y: &[u64; 16], i: usize, cap: u64) -> u64
    requires { (RangesReady image.now.sizes image.now.bytes.now y.now × (i < command_count image.now.sizes)) × (cap ≤ 2 ^ 52) }
    ensures { result ≡ min (sum_n (range_term image.now.sizes image.now.bytes.now i) (command_count image.now.sizes)) cap }
{
    row_range_sum(image.cost_row(i), image, y, i, cap)
}

// What an input adds to the sum of B of row i, capped, from the part of the image that starts at that row of its table.
fn row_gain_sum(row: &[u8], image: &Image, v: Input, i: usize, cap: u64) -> u64
    requires ready { (i < command_count image.now.sizes) × (cap ≤ 2 ^ 52) }
    requires part { (row.now ≡ gain_row v image.now.sizes image.now.bytes.now i) × (4 * input_count v image.now.sizes ≤ length row.now) }
    ensures { result ≡ min (sum_n (gain_term v image.now.sizes image.now.bytes.now i) (input_count v image.now.sizes)) cap }
{
    sum_terms(image.sizes.input_count(v), cap, |j| {
        word::word_at(row, 4 * j).unsigned_abs() * image.limit_at(v, j).unsigned_abs()
    })
}

// What an input adds to the sum of B of row i, capped.
pub fn gain_sum(image: &Image, v: Input, i: usize, cap: u64) -> u64
    requires { (i < command_count image.now.sizes) × (cap ≤ 2 ^ 52) }
    ensures { result ≡ min (sum_n (gain_term v image.now.sizes image.now.bytes.now i) (input_count v image.now.sizes)) cap }
{
    row_gain_sum(image.gain_row(v, i), image, v, i, cap)
}
