// The magnitudes that the checks and the solve take: of a word, of β, of a command's limits, and its ranges P and Y.
#![tactic(auto)]

ghost use Rattle.std.specs.Prelude.{◌≡◌, ◌+◌, ◌*◌, ◌^◌, ◌≤◌, ◌<◌, nat_abs};
ghost use Rattle.std.specs.Int.{w32};
ghost use Rattle.std.proofs.Common.{SFits};
ghost use Rattle.integer.specs.Round.{ceil};
ghost use Rattle.gradient.specs.Bounds.{magnitude, width, range_p, range_y};
ghost use Rattle.image.specs.Sizes.{command_count};
ghost use Rattle.image.specs.Layout.{command_at, problem_at, momentum_at};

use image::Image;

// The magnitude of β's word.
pub fn momentum_size(image: &Image) -> u64
    ensures { (result ≡ nat_abs (momentum_at image.now.sizes image.now.bytes.now)) × (result ≤ 2 ^ 31) }
{
    image.momentum().unsigned_abs()
}

// zb of command k: the larger magnitude of its limits.
#[tactic(auto, unfolding(gradient::specs::Bounds::magnitude, image::specs::Layout::command_at))]
fn largest_limit(image: &Image, k: usize) -> u64
    requires { k < command_count image.now.sizes }
    ensures { (result ≡ magnitude (command_at image.now.sizes image.now.bytes.now k)) × (result ≤ 2 ^ 31) }
{
    let low = image.lower_at(k).unsigned_abs();
    let high = image.upper_at(k).unsigned_abs();
    low.max(high)
}

// w of command k: its high less its low.
#[tactic(auto, unfolding(gradient::specs::Bounds::width, image::specs::Layout::command_at))]
pub fn limit_width(image: &Image, k: usize) -> u64
    requires { k < command_count image.now.sizes }
    ensures { (result ≡ width (command_at image.now.sizes image.now.bytes.now k)) × (result < 2 ^ 32) }
{
    image.upper_at(k).abs_diff(image.lower_at(k))
}

// zb + β × x / 2^b of command k: P with zb as x, Y with w.
fn range_bound(image: &Image, k: usize, x: u64) -> u64
    requires { (k < command_count image.now.sizes) × (x < 2 ^ 32) }
    ensures { result ≡ magnitude (command_at image.now.sizes image.now.bytes.now k) + ceil (nat_abs (momentum_at image.now.sizes image.now.bytes.now) * x) (2 ^ image.now.sizes.b) }
{
    let m = momentum_size(image);
    let l = largest_limit(image, k);
    l + integer::ceil_div(m * x, image.sizes.b)
}

// P of command k.
#[tactic(auto, unfolding(gradient::specs::Problem::F, gradient::specs::Bounds::range_p, image::specs::Layout::problem_at))]
pub fn range_p(image: &Image, k: usize) -> u64
    requires { k < command_count image.now.sizes }
    ensures { result ≡ range_p (problem_at image.now.sizes image.now.bytes.now) (command_at image.now.sizes image.now.bytes.now k) }
{
    range_bound(image, k, largest_limit(image, k))
}

// Y of command k.
#[tactic(auto, unfolding(gradient::specs::Problem::F, gradient::specs::Bounds::range_y, image::specs::Layout::problem_at))]
pub fn range_y(image: &Image, k: usize) -> u64
    requires { k < command_count image.now.sizes }
    ensures { result ≡ range_y (problem_at image.now.sizes image.now.bytes.now) (command_at image.now.sizes image.now.bytes.now k) }
{
    range_bound(image, k, limit_width(image, k))
}
