// Both ends of the linear terms of an accepted image, of a state that is known within ranges, and of a target.
#![tactic(auto)]

ghost use Rattle.range_loading.specs.Tables.{GainReady, GainEndsOf, RangeLoadable, LinearEndsOf};

use image::{Image, Input};
use range_sums::Ends;

// The lowest and the highest sum of row i of the state's table, undivided.
fn gain_ends(image: &Image, lows: &[i64; 16], highs: &[i64; 16], i: usize) -> Ends<i64>
    requires { GainReady image.now.sizes image.now.bytes.now lows.now highs.now i }
    ensures { GainEndsOf image.now.sizes image.now.bytes.now lows.now highs.now i result }
{
    let nx = image.sizes.nx;
    let r = array::words_of(image.gain_row(Input::State, i), nx);
    let magnitudes = matrix::magnitude_row(&r, nx);
    let sums = range_sums::sums_of(lows, highs, nx);
    let widths = range_sums::widths_of(lows, highs, nx);
    range_sums::row_ends(&r, &magnitudes, &sums, &widths, nx)
}

// Both ends of the linear term of each command: a sum over state and target, divided once.
pub fn linear_ends(image: &Image, ranges: &[u8], target: &[u8]) -> Ends<[i64; 16]>
    requires { RangeLoadable image.now.sizes image.now.bytes.now ranges.now target.now }
    ensures { LinearEndsOf image.now.sizes image.now.bytes.now ranges.now target.now result }
{
    let lows = array::words_of(ranges, image.sizes.nx);
    let highs = array::words_of(&ranges[4 * image.sizes.nx..], image.sizes.nx);
    let goal = array::words_of(target, image.sizes.nr);
    let mut low = [0; 16];
    let mut high = [0; 16];
    for i in 0..image.sizes.command_count() {
        let x = gain_ends(image, &lows, &highs, i);
        let g = loading::gain_sum(image, &goal, Input::Target, i);
        low[i] = integer::floor_div(x.low + g, image.sizes.b);
        high[i] = integer::floor_div(x.high + g, image.sizes.b);
    }
    Ends { low, high }
}
