// The checks of a call, 13 to 16, and those of a solve and of a cold start.
#![tactic(auto)]

ghost use Rattle.std.specs.Prelude.{◌≡◌, ◌*◌, length, IfOk};
ghost use Rattle.refusal.specs.Number.{number_of};
ghost use Rattle.gradient.specs.Demand.{start_within};
ghost use Rattle.image.specs.Sizes.{command_count, input_count};
ghost use Rattle.image.specs.Layout.{sizes_of, problem_at};
ghost use Rattle.image.specs.Order.{first_fault, buffer_number};
ghost use Rattle.interface.specs.Calls.{values_within, input_passes, start_of, target_and_start, call_number, solvable_number, solve_number, cold_number};

use image::{Image, Input};
use refusal::Refusal;

// Whether each value of an input is within its limit.
fn values_pass(image: &Image, v: Input, values: &[u8]) -> bool
    requires { length values.now ≡ 4 * input_count v image.now.sizes }
    ensures { result ≡ values_within v image.now.sizes image.now.bytes.now values.now }
{
    (0..image.sizes.input_count(v)).all(|j| {
        word::word_at(values, 4 * j).unsigned_abs() <= image.limit_at(v, j).unsigned_abs()
    })
}

// Check 13 of a state, 16 of a target.
pub fn input_passes(image: &Image, v: Input, values: &[u8]) -> bool
    ensures { result ≡ input_passes v image.now.sizes image.now.bytes.now values.now }
{
    values.len() == 4 * image.sizes.input_count(v) && values_pass(image, v, values)
}

// Whether each command of the start is within its limits.
fn start_passes(image: &Image, start: &[u8]) -> bool
    requires { length start.now ≡ 4 * command_count image.now.sizes }
    ensures { result ≡ start_within (problem_at image.now.sizes image.now.bytes.now) (start_of image.now.sizes start.now) }
{
    (0..image.sizes.command_count()).all(|k| row_tests::is_inside(
        image,
        k,
        word::word_at(start, 4 * k),
    ))
}

// Checks 16 and 14, in this order.
#[tactic(auto, unfolding(image::specs::Layout::problem_of))]
pub fn check_rest(image: &Image, target: &[u8], start: &[u8]) -> Result<(), Refusal>
    requires { image.now.sizes ≡ sizes_of image.now.bytes.now }
    ensures { number_of result ≡ first_fault (target_and_start image.now.bytes.now target.now start.now) }
{
    if !input_passes(image, Input::Target, target) {
        return Err(Refusal::Target);
    }
    if start.len() != 4 * image.sizes.command_count() || !start_passes(image, start) {
        return Err(Refusal::Start);
    }
    Ok(())
}

// Check 13, and these.
#[tactic(auto, unfolding(interface::specs::Calls::call_number))]
fn check_call(image: &Image, state: &[u8], target: &[u8], start: &[u8]) -> Result<(), Refusal>
    requires { image.now.sizes ≡ sizes_of image.now.bytes.now }
    ensures { number_of result ≡ call_number image.now.bytes.now state.now target.now start.now }
{
    if !input_passes(image, Input::State, state) {
        return Err(Refusal::State);
    }
    check_rest(image, target, start)
}

// Check 15, of a buffer of `room` bytes for an answer of `length` bytes.
#[tactic(auto, using(image::proofs::Ordering::buffer_fits, image::proofs::Ordering::buffer_refused))]
pub fn check_buffer(length: usize, room: usize) -> Result<(), Refusal>
    ensures { number_of result ≡ buffer_number length room }
{
    if room == length {
        Ok(())
    } else {
        Err(Refusal::Buffer)
    }
}

// The checks of a solve but for its buffer: the image that the bytes are.
#[tactic(auto, using(image::proofs::Ordering::handed_on, image::proofs::Ordering::went_on), unfolding(interface::specs::Calls::solvable_number))]
pub fn check_solvable<'a>(
    bytes: &'a [u8],
    state: &[u8],
    target: &[u8],
    start: &[u8],
) -> Result<Image<'a>, Refusal>
    ensures number { number_of result ≡ solvable_number bytes.now state.now target.now start.now }
    ensures image { IfOk result (λ i. (i.bytes.now ≡ bytes.now) × (i.sizes ≡ sizes_of bytes.now)) }
{
    let image = tables::check_image(bytes)?;
    check_call(&image, state, target, start)?;
    Ok(image)
}

// The checks of a solve, of an answer of `room` bytes.
#[tactic(auto, using(image::proofs::Ordering::handed_on, image::proofs::Ordering::went_on), unfolding(interface::specs::Calls::solve_number))]
pub fn check_solve(
    bytes: &[u8],
    state: &[u8],
    target: &[u8],
    start: &[u8],
    room: usize,
) -> Result<(), Refusal>
    ensures { number_of result ≡ solve_number bytes.now state.now target.now start.now room }
{
    let image = check_solvable(bytes, state, target, start)?;
    check_buffer(8 * image.sizes.command_count() + 8, room)
}

// The checks of a cold start, of an answer of `room` bytes.
#[tactic(auto, using(image::proofs::Ordering::handed_on, image::proofs::Ordering::went_on), unfolding(interface::specs::Calls::cold_number))]
pub fn check_cold_start(bytes: &[u8], room: usize) -> Result<(), Refusal>
    ensures { number_of result ≡ cold_number bytes.now room }
{
    let image = tables::check_image(bytes)?;
    check_buffer(4 * image.sizes.command_count(), room)
}
