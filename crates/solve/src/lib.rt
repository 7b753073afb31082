// A solve on an accepted image: the commands, their error bounds, D, and the answer's bytes. A cold start's bytes.
#![tactic(auto)]

ghost use Rattle.std.specs.Prelude.{◌≡◌, ◌++◌, map, ◌+◌, ◌*◌, pos, length, replicate};
ghost use Rattle.word.specs.Word.{words_out, pattern_bytes, Words};
ghost use Rattle.image.specs.Layout.{sizes_of};
ghost use Rattle.interface.specs.Calls.{answer_length, solve_answer};
ghost use Rattle.interface.specs.Accepted.{Accepted, Solvable, Dominant};
ghost use Rattle.solve.specs.Reached.{MatrixOf, CommandsOf, BoundsOf};

use image::Image;

// The commands after a number of iterations. Once one changes nothing, none after it does.
fn commands_after(
    image: &[u8],
    state: &[u8],
    target: &[u8],
    start: &[u8],
    m: [[i64; 16]; 16],
    count: usize,
) -> [i64; 16]
    requires { Solvable image.now state.now target.now start.now × MatrixOf image.now m }
    ensures { CommandsOf image.now state.now target.now start.now count result }
{
    let whole = Image::of(image);
    let t = loading::command_terms(&whole, state, target);
    let mut new = [0; 16];
    let mut z = array::words_of(start, t.n);
    let mut y = z;
    for _ in 0..count {
        commands::next_z(&m, t, &y, &mut new);
        let same = commands::store_y(t.n, t.b, t.momentum, &new, &z, &mut y, true);
        if commands::store_z(t.n, &new, &mut z, same) {
            return z;
        }
    }
    z
}

// The error bounds after a number of iterations, which are the image's alone. Once one changes nothing, none after it does.
fn bounds_after(image: &[u8], m: [[i64; 16]; 16], count: usize) -> [u64; 16]
    requires { Accepted image.now × MatrixOf image.now m }
    ensures { BoundsOf image.now count result }
{
    let whole = Image::of(image);
    let t = loading::bound_terms(&whole);
    let magnitudes = matrix::magnitudes_of(&m, t.n);
    let mut e = [0; 16];
    let mut q = [0; 16];
    let mut new = [0; 16];
    for _ in 0..count {
        bounds::next_e(&magnitudes, t, &q, &mut new);
        if bounds::store(t, &new, &mut e, &mut q) {
            return e;
        }
    }
    e
}

// The commands and then the bounds are written.
fn put_commands_and_bounds(out: &mut [u8], z: &[i64], e: &[u64])
    requires { (length out.old ≡ 4 * length z.now + 4 * length e.now) × Words z.now }
    ensures { out.new ≡ words_out z.now ++ words_out (map pos e.now) }
{
    let at = 4 * z.len();
    word::put_words(&mut out[..at], z);
    array::put_bounds(&mut out[at..], e);
}

// And D behind them.
fn put_answer(out: &mut [u8], z: &[i64], e: &[u64], d: u64)
    requires { (length out.old ≡ 4 * length z.now + 4 * length e.now + 8) × Words z.now }
    ensures { out.new ≡ (words_out z.now ++ words_out (map pos e.now)) ++ pattern_bytes d }
{
    let at = out.len() - 8;
    put_commands_and_bounds(&mut out[..at], z, e);
    word::put_pattern(out, at, d);
}

// The commands, the bounds and D after the image's number of iterations are written.
pub fn solve(image: &[u8], state: &[u8], target: &[u8], start: &[u8], answer: &mut [u8])
    requires { (Solvable image.now state.now target.now start.now × Dominant image.now) × (length answer.old ≡ answer_length (sizes_of image.now)) }
    ensures { answer.new ≡ solve_answer image.now state.now target.now start.now }
{
    let whole = Image::of(image);
    let count = whole.sizes.sweeps;
    let n = whole.sizes.command_count();
    let m = matrix::matrix(&whole);
    let z = commands_after(image, state, target, start, m, count);
    let e = bounds_after(image, m, count);
    let d = distance::distance(image, state, target, &m, &z);
    put_answer(answer, &z[..n], &e[..n], d);
}

// The cold start is written: zeros, whatever the image.
pub fn cold_start(start: &mut [u8])
    ensures { start.new ≡ replicate (length start.old) 0 }
{
    start.fill(0);
}
