// Check 13 of ranges, and the checks of a solve with ranges.
#![tactic(auto)]

ghost use Rattle.std.specs.Prelude.{◌≡◌, ◌*◌, length, IfOk};
ghost use Rattle.std.specs.Int.{w32};
ghost use Rattle.std.proofs.Common.{SFits};
ghost use Rattle.refusal.specs.Number.{number_of};
ghost use Rattle.image.specs.Layout.{sizes_of};
ghost use Rattle.ranges.specs.Interval.{interval};
ghost use Rattle.ranges.specs.Claim.{interval_within};
ghost use Rattle.range_interface.specs.Calls.{ranges_within, ranges_pass, range_call_number, range_solvable_number, range_solve_number};

use image::{Image, Input};
use refusal::Refusal;

// Whether a low is not above its high, and neither is beyond the limit.
#[tactic(auto, unfolding(ranges::specs::Claim::interval_within))]
fn range_within(low: i64, high: i64, limit: u64) -> bool
    requires { SFits w32 low × SFits w32 high }
    ensures { result ≡ interval_within (interval low high) limit }
{
    low <= high && low.unsigned_abs() <= limit && high.unsigned_abs() <= limit
}

// Whether each range is so: the lows are followed by the highs.
fn ranges_within(image: &Image, ranges: &[u8]) -> bool
    requires { length ranges.now ≡ 8 * image.now.sizes.nx }
    ensures { result ≡ ranges_within image.now.sizes image.now.bytes.now ranges.now }
{
    let count = image.sizes.nx;
    (0..count).all(|j| {
        let low = word::word_at(ranges, 4 * j);
        let high = word::word_at(ranges, 4 * count + 4 * j);
        range_within(low, high, image.limit_at(Input::State, j).unsigned_abs())
    })
}

// Check 13 of ranges.
fn ranges_pass(image: &Image, ranges: &[u8]) -> bool
    ensures { result ≡ ranges_pass image.now.sizes image.now.bytes.now ranges.now }
{
    ranges.len() == 8 * image.sizes.nx && ranges_within(image, ranges)
}

// Checks 13, 16 and 14, in this order.
#[tactic(auto, unfolding(range_interface::specs::Calls::range_call_number))]
fn check_range_call(
    image: &Image,
    ranges: &[u8],
    target: &[u8],
    start: &[u8],
) -> Result<(), Refusal>
    requires { image.now.sizes ≡ sizes_of image.now.bytes.now }
    ensures { number_of result ≡ range_call_number image.now.bytes.now ranges.now target.now start.now }
{
    if !ranges_pass(image, ranges) {
        return Err(Refusal::State);
    }
    calls::check_rest(image, target, start)
}

// The checks of a solve with ranges but for its buffer: the image that the bytes are.
#[tactic(auto, using(image::proofs::Ordering::handed_on, image::proofs::Ordering::went_on), unfolding(range_interface::specs::Calls::range_solvable_number))]
fn check_range_solvable<'a>(
    bytes: &'a [u8],
    ranges: &[u8],
    target: &[u8],
    start: &[u8],
) -> Result<Image<'a>, Refusal>
    ensures number { number_of result ≡ range_solvable_number bytes.now ranges.now target.now start.now }
    ensures image { IfOk result (λ i. (i.bytes.now ≡ bytes.now) × (i.sizes ≡ sizes_of bytes.now)) }
{
    let image = tables::check_image(bytes)?;
    check_range_call(&image, ranges, target, start)?;
    Ok(image)
}

// The checks of a solve with ranges, of an answer of `room` bytes.
#[tactic(auto, using(image::proofs::Ordering::handed_on, image::proofs::Ordering::went_on), unfolding(range_interface::specs::Calls::range_solve_number))]
pub fn check_range_solve(
    bytes: &[u8],
    ranges: &[u8],
    target: &[u8],
    start: &[u8],
    room: usize,
) -> Result<(), Refusal>
    ensures { number_of result ≡ range_solve_number bytes.now ranges.now target.now start.now room }
{
    let image = check_range_solvable(bytes, ranges, target, start)?;
    calls::check_buffer(8 * image.sizes.command_count(), room)
}
