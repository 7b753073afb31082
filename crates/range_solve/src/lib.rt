// A solve with ranges on an accepted image: the lowest and the highest commands, and the answer's bytes.
#![tactic(auto)]

ghost use Rattle.std.specs.Prelude.{◌≡◌, length};
ghost use Rattle.image.specs.Layout.{sizes_of};
ghost use Rattle.range_interface.specs.Calls.{range_answer_length, range_answer};
ghost use Rattle.range_interface.specs.Accepted.{RangeSolvable};
ghost use Rattle.solve.specs.Reached.{MatrixOf};
ghost use Rattle.range_solve.specs.Reached.{CarriedOf};

use image::Image;
use range_sums::Ends;

// Both after a number of iterations: the lowest commands take the highest linear terms, and the new y of an end takes the old commands of the opposite end. Once an iteration changes neither end, none after it does.
#[inline(never)]
fn carried_after(
    image: &[u8],
    ranges: &[u8],
    target: &[u8],
    start: &[u8],
    m: &[[i64; 16]; 16],
    count: usize,
) -> Ends<[i64; 16]>
    requires { RangeSolvable image.now ranges.now target.now start.now × MatrixOf image.now m.now }
    ensures { CarriedOf image.now ranges.now target.now start.now count result }
{
    let whole = Image::of(image);
    let h = range_loading::linear_ends(&whole, ranges, target);
    let t = loading::terms_with(&whole, h.high);
    let u = loading::terms_with(&whole, h.low);
    let magnitudes = matrix::magnitudes_of(m, t.n);
    let first = array::words_of(start, t.n);
    let mut z = Ends {
        low: first,
        high: first,
    };
    let mut y = z;
    let mut new = Ends {
        low: [0; 16],
        high: [0; 16],
    };
    for _ in 0..count {
        range_commands::next_ends(m, &magnitudes, t, u, &y, &mut new);
        let a = commands::store_y(t.n, t.b, t.momentum, &new.low, &z.high, &mut y.low, true);
        let b = commands::store_y(u.n, u.b, u.momentum, &new.high, &z.low, &mut y.high, a);
        let c = commands::store_z(t.n, &new.low, &mut z.low, b);
        if commands::store_z(u.n, &new.high, &mut z.high, c) {
            return z;
        }
    }
    z
}

// The lowest and then the highest commands after the image's number of iterations are written.
pub fn range_solve(image: &[u8], ranges: &[u8], target: &[u8], start: &[u8], answer: &mut [u8])
    requires { RangeSolvable image.now ranges.now target.now start.now × (length answer.old ≡ range_answer_length (sizes_of image.now)) }
    ensures { answer.new ≡ range_answer image.now ranges.now target.now start.now }
{
    let whole = Image::of(image);
    let count = whole.sizes.sweeps;
    let m = matrix::matrix(&whole);
    let r = carried_after(image, ranges, target, start, &m, count);
    let n = whole.sizes.command_count();
    word::put_words(&mut answer[..4 * n], &r.low[..n]);
    word::put_words(&mut answer[4 * n..], &r.high[..n]);
}
