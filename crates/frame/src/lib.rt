// Line 01 of a design sheet, the lines due after it, and the word of a line's double.
#![tactic(auto)]

ghost use Rattle.std.specs.Prelude.{◌≡◌, ◌<◌};
ghost use Rattle.image.specs.Sizes.{Sound};
ghost use Rattle.double.specs.Double.{converted_number};
ghost use Rattle.frame.specs.Frame.{frame_sizes, head_of, head_fault, line_one_number, total, due, due_at, rounding_of, not_below_zero, word_of, word_number, value_of, value_fault, due_number};

use double::Rounding;
use image::Sizes;
use line::Frame;
use refusal::Refusal;

// The kind, row and column that a line has to have. A kind stays the number of the text: the sheet and the page hold it so, and an enum would
// be made of that number and turned back into it.
#[derive(Clone, Copy)]
pub struct Due {
    pub kind: usize,
    pub row: usize,
    pub column: usize,
}

// The sizes of line 01.
fn frame_sizes(row: usize, column: usize, bits: u64) -> Sizes
    ensures { result ≡ frame_sizes row column bits }
{
    Sizes {
        nu: row,
        steps: column,
        nx: (bits / 0x100_0000_0000_0000) as usize,
        b: (bits / 0x1_0000_0000_0000 % 256) as u32,
        w: (bits / 0x100_0000_0000 % 256) as u32,
        sweeps: (bits / 65536 % 65536) as usize,
        nr: (bits / 0x1_0000_0000 % 256) as usize,
    }
}

// What line 01 gives.
#[tactic(auto, unfolding(crate::specs::Frame::head_of))]
pub fn head_of(l: Result<Frame, Refusal>) -> Result<Sizes, Refusal>
    ensures { (result ≡ head_of l) × (head_fault result ≡ line_one_number l) }
{
    let frame = l?;
    if frame.kind != 1 || frame.bits % 65536 != 0 {
        return Err(Refusal::Misplaced);
    }
    let z = frame_sizes(frame.row, frame.column, frame.bits);
    if !z.is_sound() {
        return Err(Refusal::Size);
    }
    Ok(z)
}

fn frame_due(kind: usize, row: usize, column: usize) -> Due
    ensures { result ≡ due kind row column }
{
    Due { kind, row, column }
}

// What is due at a line after line 01.
#[tactic(auto, using(crate::proofs::Laws::flat))]
pub fn due_at(z: Sizes, i: usize) -> Due
    requires { Sound z × (i < total z) }
    ensures { result ≡ due_at z i }
{
    let n = z.command_count();
    let nx = z.nx;
    if i < n * n {
        return frame_due(2, i / n, i % n);
    }
    let i = i - n * n;
    if i < n * nx {
        return frame_due(3, i / nx, i % nx);
    }
    let i = i - n * nx;
    let nu = z.nu;
    if i < n {
        return frame_due(4, i % nu, i / nu);
    }
    let i = i - n;
    if i < n {
        return frame_due(5, i % nu, i / nu);
    }
    let i = i - n;
    if i < 1 {
        return frame_due(6, 0, 0);
    }
    let i = i - 1;
    if i < nx {
        return frame_due(7, i, 0);
    }
    let i = i - nx;
    let nr = z.nr;
    if i < n * nr {
        return frame_due(8, i / nr, i % nr);
    }
    frame_due(9, i - n * nr, 0)
}

// How a value of a kind is rounded.
fn rounding(kind: usize) -> Rounding
    ensures { result ≡ rounding_of kind }
{
    match kind {
        2 | 3 | 8 => Rounding::Nearest,
        5 => Rounding::Down,
        _ => Rounding::Up,
    }
}

// The word of a limit of the state or the target is not negative.
fn not_below_zero(c: Option<i64>) -> Option<i64>
    ensures { result ≡ not_below_zero c }
{
    c.filter(|v| 0 <= *v)
}

// The word of a value of a kind.
#[tactic(auto, unfolding(crate::specs::Frame::word_of))]
pub fn word_of(z: Sizes, kind: usize, x: f64) -> Option<i64>
    ensures { (result ≡ word_of z kind x) × (converted_number result ≡ word_number z kind x) }
{
    let c = double::to_word(x, z.b, z.w, rounding(kind));
    if matches!(kind, 7 | 9) {
        not_below_zero(c)
    } else {
        c
    }
}

// What a line gives where d is due: its double.
pub fn value_of(d: Due, l: Result<Frame, Refusal>) -> Result<f64, Refusal>
    ensures { (result ≡ value_of d l) × (value_fault result ≡ due_number d l) }
{
    let frame = l?;
    if frame.kind != d.kind || frame.row != d.row || frame.column != d.column {
        return Err(Refusal::Misplaced);
    }
    Ok(double::of_pattern(frame.bits))
}
