// Check 11: the range of β, and its ratio by the least margin and the largest total, which 9 and 10 go by too.
#![tactic(auto)]

ghost use Rattle.std.specs.Prelude.{◌≡◌, ◌^◌, ◌≤◌, nat_abs, ◌*ℤ◌};
ghost use Rattle.interface.specs.Tables.{least_margin, largest_total, momentum_range, momentum_ratio};
ghost use Rattle.momentum.specs.Ready.{MomentumReady};

use image::Image;

// The least margin and the largest total of the rows.
#[derive(Clone, Copy)]
pub struct Extremes {
    pub margin: i64,
    pub total: i64,
}

// The first row, and then each row after it.
pub fn extremes_of(image: &Image) -> Extremes
    ensures { (result.margin ≡ least_margin image.now.sizes image.now.bytes.now) × (result.total ≡ largest_total image.now.sizes image.now.bytes.now) }
{
    let first = dominance::disc_of(image, 0);
    let mut margin = first.margin;
    let mut total = first.total;
    for i in 1..image.sizes.command_count() {
        let row = dominance::disc_of(image, i);
        margin = margin.min(row.margin);
        total = total.max(row.total);
    }
    Extremes { margin, total }
}

// a² × c.
fn squared(a: i64, c: i64) -> i64
    requires { (nat_abs a ≤ 2 ^ 21) × (nat_abs c ≤ 2 ^ 20) }
    ensures { result ≡ a *ℤ a *ℤ c }
{
    a * a * c
}

// Whether β is from 0 to 2^b − 1.
pub fn is_momentum(image: &Image) -> bool
    ensures { result ≡ momentum_range image.now.sizes image.now.bytes.now }
{
    let m = image.momentum();
    0 <= m && m < dominance::power(image.sizes.b)
}

// The ratio of 11 by the extremes x. Its products fit 64 bits because β is in its range and 9 and 10 have passed: margins and totals are then from 1 to 2^b.
pub fn momentum_passes(image: &Image, x: Extremes) -> bool
    requires { MomentumReady image.now.sizes image.now.bytes.now x }
    ensures { result ≡ momentum_ratio image.now.sizes image.now.bytes.now }
{
    let f = dominance::power(image.sizes.b);
    let m = image.momentum();
    squared(f - m, x.total) <= squared(f + m, x.margin)
}
