// The lines after line 01, taken one by one: a low limit is kept as a double until its high limit is read.
#![tactic(auto)]

ghost use Rattle.std.specs.Prelude.{◌≡◌, List, ℕ, ◌+◌, ◌*◌, ◌<◌, length};
ghost use Rattle.refusal.specs.Number.{number_of};
ghost use Rattle.image.specs.Sizes.{Sound};
ghost use Rattle.line.specs.Line.{line_at};
ghost use Rattle.frame.specs.Frame.{total};
ghost use Rattle.lines.specs.Lines.{command_of, line_fault, ReadTo};

use double::Limits;
use frame::Due;
use image::Sizes;
use line::Frame;
use refusal::Refusal;

// The command whose limit a line has: its row is the motor, its column the step.
fn command_of(z: Sizes, d: Due) -> usize
    requires { Sound z × (d.row < z.nu) × (d.column < z.steps) }
    ensures { result ≡ command_of z d }
{
    d.column * z.nu + d.row
}

// Takes line i after line 01. A low limit is kept as a double until its high limit is read; any other word is stored.
// What is promised holds of every text of which i lines are read and this is the next.
#[tactic(auto, using(frame::proofs::Laws::total_high))]
pub fn take_line(
    words: &mut [i64; 569],
    lows: &mut [f64; 16],
    l: Result<Frame, Refusal>,
    z: Sizes,
    i: usize,
) -> Result<(), Refusal>
    requires { Sound z × (i < total z) × (length words.old ≡ 569) × (length lows.old ≡ 16) }
    ensures { (s : List ℕ) → l ≡ line_at s (23 * (i + 1)) → ReadTo z s i words.old lows.old → (number_of result ≡ line_fault z s i) × (number_of result ≡ 0 → ReadTo z s (i + 1) words.new lows.new) }
{
    let n = z.command_count();
    let d = frame::due_at(z, i);
    let x = frame::value_of(d, l)?;
    if d.kind == 5 {
        let low = lows[command_of(z, d)];
        let (low, high) = double::inward(Limits { low, high: x }, z.b, z.w).ok_or(Refusal::Word)?;
        words[8 + i - n] = low;
        words[8 + i] = high;
        return Ok(());
    }
    let v = frame::word_of(z, d.kind, x).ok_or(Refusal::Word)?;
    if d.kind == 4 {
        lows[command_of(z, d)] = x;
    } else {
        words[8 + i] = v;
    }
    Ok(())
}
