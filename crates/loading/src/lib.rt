// What an accepted image, a state and a target give the iterations, as arrays: all that stays the same over them, but for M.
#![tactic(auto)]

ghost use Rattle.std.specs.Prelude.{◌≡◌, ◌<◌, length, get_or, pos};
ghost use Rattle.image.specs.Sizes.{Whole, command_count, input_count};
ghost use Rattle.image.specs.Layout.{gain_row};
ghost use Rattle.array.specs.Arrays.{Filled, WordsTo};
ghost use Rattle.gradient.specs.Index.{sum_z};
ghost use Rattle.dot.specs.Sums.{input_term, RunsTo};
ghost use Rattle.loading.specs.Tables.{exact_at, linear_at, width_at, LimitsOf, Loadable, TermsOf, CommandTermsOf, BoundTermsOf};

use array::Limits;
use bounds::BoundTerms;
use commands::CommandTerms;
use image::{Image, Input};

// The limits of the image's commands. Not inlined, as terms_with is not: both are made more than once in a solve's frame, whose stack is bounded.
#[inline(never)]
pub fn limits_of(image: &Image) -> Limits
    ensures { LimitsOf image.now.sizes image.now.bytes.now result }
{
    let mut lower = [0; 16];
    let mut upper = [0; 16];
    for i in 0..image.sizes.command_count() {
        lower[i] = image.lower_at(i);
        upper[i] = image.upper_at(i);
    }
    Limits { lower, upper }
}

// Row i of an input's table times its values x, undivided.
pub fn gain_sum(image: &Image, x: &[i64; 16], v: Input, i: usize) -> i64
    requires { (i < command_count image.now.sizes) × (WordsTo (input_count v image.now.sizes) x.now × RunsTo (input_count v image.now.sizes) (input_term (gain_row v image.now.sizes image.now.bytes.now i) x.now)) }
    ensures { result ≡ sum_z (input_term (gain_row v image.now.sizes image.now.bytes.now i) x.now) 0 (input_count v image.now.sizes) }
{
    dot::row_sum(image.gain_row(v, i), x, image.sizes.input_count(v))
}

// The linear term of each command, undivided: one sum over state and target.
pub fn exact_terms(image: &Image, state: &[u8], target: &[u8]) -> [i64; 16]
    requires { Loadable image.now.sizes image.now.bytes.now state.now target.now }
    ensures { Filled (pos 0) (command_count image.now.sizes) (exact_at image.now.sizes image.now.bytes.now state.now target.now) result }
{
    let x = array::words_of(state, image.sizes.nx);
    let y = array::words_of(target, image.sizes.nr);
    let mut r = [0; 16];
    for i in 0..image.sizes.command_count() {
        r[i] = gain_sum(image, &x, Input::State, i) + gain_sum(image, &y, Input::Target, i);
    }
    r
}

// The same divided, once.
fn linear_terms(image: &Image, state: &[u8], target: &[u8]) -> [i64; 16]
    requires { Loadable image.now.sizes image.now.bytes.now state.now target.now }
    ensures { Filled (pos 0) (command_count image.now.sizes) (linear_at image.now.sizes image.now.bytes.now state.now target.now) result }
{
    let g = exact_terms(image, state, target);
    let mut r = [0; 16];
    for i in 0..image.sizes.command_count() {
        r[i] = integer::floor_div(g[i], image.sizes.b);
    }
    r
}

// What the iterations of the commands take, with these linear terms.
#[inline(never)]
pub fn terms_with(image: &Image, linear: [i64; 16]) -> CommandTerms
    requires { length linear ≡ 16 }
    ensures { TermsOf image.now.sizes image.now.bytes.now (λ i. get_or linear i (pos 0)) result }
{
    CommandTerms {
        limits: limits_of(image),
        linear,
        momentum: magnitudes::momentum_size(image),
        n: image.sizes.command_count(),
        b: image.sizes.b,
    }
}

// What they take for a state and a target.
pub fn command_terms(image: &Image, state: &[u8], target: &[u8]) -> CommandTerms
    requires { Loadable image.now.sizes image.now.bytes.now state.now target.now }
    ensures { CommandTermsOf image.now.sizes image.now.bytes.now state.now target.now result }
{
    let linear = linear_terms(image, state, target);
    terms_with(image, linear)
}

// w of each command.
fn widths_of(image: &Image) -> [u64; 16]
    ensures { Filled 0 (command_count image.now.sizes) (width_at image.now.sizes image.now.bytes.now) result }
{
    let mut r = [0; 16];
    for i in 0..image.sizes.command_count() {
        r[i] = magnitudes::limit_width(image, i);
    }
    r
}

// What the iterations of the error bounds take: it is the image's alone.
pub fn bound_terms(image: &Image) -> BoundTerms
    ensures { BoundTermsOf image.now.sizes image.now.bytes.now result }
{
    BoundTerms {
        width: widths_of(image),
        momentum: magnitudes::momentum_size(image),
        n: image.sizes.command_count(),
        b: image.sizes.b,
    }
}
