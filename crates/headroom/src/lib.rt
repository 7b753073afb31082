// Check 12 of a row: P and Y of its command, and A + B, are in the word.
#![tactic(auto)]

ghost use Rattle.std.specs.Prelude.{◌≡◌, ◌+◌, ◌*◌, ◌^◌, ◌≤◌, ◌<◌};
ghost use Rattle.word.specs.Format.{top};
ghost use Rattle.image.specs.Sizes.{Sound, Whole, command_count};
ghost use Rattle.interface.specs.Tables.{range_test, row_test};
ghost use Rattle.row_sums.specs.Terms.{RangesReady};

use image::{Image, Input, Sizes};

// Whether P and Y of command i are in the word.
#[tactic(auto, unfolding(interface::specs::Tables::range_test))]
pub fn range_passes(image: &Image, i: usize) -> bool
    requires { i < command_count image.now.sizes }
    ensures { result ≡ range_test image.now.sizes image.now.bytes.now i }
{
    let most = word::top_of(image.sizes.w);
    magnitudes::range_p(image, i) <= most && magnitudes::range_y(image, i) <= most
}

// 2^b × top + 1. A sum above 2^b × top is above top once it is divided and rounded up, whatever follows, so the sums of A and B stop there:
// B's may pass 64 bits, and would wrap to a small one.
fn sum_cap(z: Sizes) -> u64
    requires { Sound z }
    ensures { (result ≡ 2 ^ z.b * top z.w + 1) × (result ≤ 2 ^ 52) }
{
    let f: u64 = 1 << z.b;
    f * word::top_of(z.w) + 1
}

// Whether A + B of row i is in the word, with every Y in y. A is summed only once every Y is in the word, so that its products fit 64 bits.
pub fn row_passes(image: &Image, y: &[u64; 16], i: usize) -> bool
    requires { RangesReady image.now.sizes image.now.bytes.now y.now × (i < command_count image.now.sizes) }
    ensures { result ≡ row_test image.now.sizes image.now.bytes.now i }
{
    let z = image.sizes;
    let cap = sum_cap(z);
    let a = row_sums::range_sum(image, y, i, cap);
    let state = row_sums::gain_sum(image, Input::State, i, cap);
    let target = row_sums::gain_sum(image, Input::Target, i, cap);
    let b = (state + target).min(cap);
    integer::ceil_div(a, z.b) + integer::ceil_div(b, z.b) <= word::top_of(z.w)
}
