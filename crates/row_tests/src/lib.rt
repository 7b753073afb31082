// The tests of each row: 7, 17, 8, and the two of 12.
#![tactic(auto)]

ghost use Rattle.std.specs.Prelude.{◌≡◌, ◌&&◌, ◌<◌};
ghost use Rattle.std.specs.Int.Signed.{le_z};
ghost use Rattle.gradient.specs.Index.{all_to};
ghost use Rattle.image.specs.Sizes.{Whole, command_count};
ghost use Rattle.image.specs.Layout.{lower_at, upper_at};
ghost use Rattle.interface.specs.Tables.{order_test, stop_test, symmetry_test, range_test, row_test};
ghost use Rattle.row_sums.specs.Terms.{RangesPass};

use image::Image;

// Whether x is within the limits of command k: 17 of zero, 14 of a start.
pub fn is_inside(image: &Image, k: usize, x: i64) -> bool
    requires { k < command_count image.now.sizes }
    ensures { result ≡ le_z (lower_at image.now.sizes image.now.bytes.now k) x && le_z x (upper_at image.now.sizes image.now.bytes.now k) }
{
    image.lower_at(k) <= x && x <= image.upper_at(k)
}

// Whether each row passes 7: its low limit is not above its high one.
pub fn limits_ordered(image: &Image) -> bool
    ensures { result ≡ all_to (order_test image.now.sizes image.now.bytes.now) (command_count image.now.sizes) }
{
    (0..image.sizes.command_count()).all(|i| image.lower_at(i) <= image.upper_at(i))
}

// Whether each row passes 17: zero is within its limits.
pub fn stoppable(image: &Image) -> bool
    ensures { result ≡ all_to (stop_test image.now.sizes image.now.bytes.now) (command_count image.now.sizes) }
{
    (0..image.sizes.command_count()).all(|i| is_inside(image, i, 0))
}

// Whether each row passes 8: it is its column.
pub fn symmetric(image: &Image) -> bool
    ensures { result ≡ all_to (symmetry_test image.now.sizes image.now.bytes.now) (command_count image.now.sizes) }
{
    (0..image.sizes.command_count()).all(|i| dominance::is_symmetric(image, i))
}

// Whether each row passes the first test of 12: its P and Y are in the word.
pub fn ranges_pass(image: &Image) -> bool
    ensures { result ≡ all_to (range_test image.now.sizes image.now.bytes.now) (command_count image.now.sizes) }
{
    (0..image.sizes.command_count()).all(|i| headroom::range_passes(image, i))
}

// Whether each row passes the second test of 12: A + B is in the word. Every Y is worked out once.
pub fn sums_pass(image: &Image) -> bool
    requires { RangesPass image.now.sizes image.now.bytes.now }
    ensures { result ≡ all_to (row_test image.now.sizes image.now.bytes.now) (command_count image.now.sizes) }
{
    let y = row_sums::ranges_y(image);
    (0..image.sizes.command_count()).all(|i| headroom::row_passes(image, &y, i))
}
