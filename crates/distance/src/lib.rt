// D of an accepted image's commands: how many counts they are from the optimum at most.
#![tactic(auto)]

ghost use Rattle.std.specs.Prelude.{◌≡◌, ◌^◌, ◌<◌, pos, nat_abs, ◌≤ℤ◌, take};
ghost use Rattle.image.specs.Sizes.{Whole, command_count};
ghost use Rattle.image.specs.Layout.{sizes_of, problem_of};
ghost use Rattle.interface.specs.Tables.{least_margin, margin_of};
ghost use Rattle.interface.specs.Accepted.{Dominant};
ghost use Rattle.interface.specs.Calls.{inputs_of};
ghost use Rattle.loading.specs.Tables.{Loadable};
ghost use Rattle.optimum.specs.Optimum.{optimum_bound};
ghost use Rattle.distance.specs.Tables.{ResidualTermsOf, Measurable};

use image::Image;
use residual::ResidualTerms;

// What R takes, but for M and the commands.
fn residual_terms(image: &Image, state: &[u8], target: &[u8]) -> ResidualTerms
    requires { Loadable image.now.sizes image.now.bytes.now state.now target.now }
    ensures { ResidualTermsOf image.now.sizes image.now.bytes.now state.now target.now result }
{
    ResidualTerms {
        limits: loading::limits_of(image),
        linear: loading::exact_terms(image, state, target),
        n: image.sizes.command_count(),
        b: image.sizes.b,
    }
}

// m: the least margin of check 9, a count above 0 once that has passed.
fn margin(image: &Image) -> u64
    requires { pos 1 ≤ℤ least_margin image.now.sizes image.now.bytes.now }
    ensures { (result ≡ nat_abs (least_margin image.now.sizes image.now.bytes.now)) × (result < 2 ^ 63) }
{
    let x = momentum::extremes_of(image);
    x.margin as u64
}

// D of the commands z: R / m rounded up.
pub fn distance(
    image: &[u8],
    state: &[u8],
    target: &[u8],
    m: &[[i64; 16]; 16],
    z: &[i64; 16],
) -> u64
    requires { Measurable image.now state.now target.now m.now z.now × Dominant image.now }
    ensures { result ≡ optimum_bound (problem_of image.now) (margin_of image.now) (inputs_of (sizes_of image.now) state.now target.now) (take (command_count (sizes_of image.now)) z.now) }
{
    let whole = Image::of(image);
    let t = residual_terms(&whole, state, target);
    let r = residual::residual(m, t, z);
    integer::ceil_by(r, margin(&whole))
}
