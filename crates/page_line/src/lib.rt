// What rounding did to one design number, and its line on the design page.
#![tactic(auto)]

ghost use Rattle.std.specs.Prelude.{◌≡◌, not, ◌+◌, ◌<◌, ◌≤◌, T, length};
ghost use Rattle.std.specs.Float.Ieee.{is_nan};
ghost use Rattle.word.specs.Buffer.{put_at};
ghost use Rattle.page_line.specs.Effect.{effect_of, plus_for_minus, given, kept, fields_text, effect_text, line_text};

use frame::Due;

// What rounding did to a design number: it is kept as given, or moved to the double of its word.
#[derive(Clone, Copy)]
pub enum Effect {
    Kept(f64),
    Moved(f64, f64),
}

// What was done to x, where y is the double of its word. The comparison goes by value, so minus zero is kept.
#[tactic(auto, unfolding(crate::specs::Effect::effect_of, crate::specs::Effect::is_kept))]
pub fn effect_of(x: f64, y: f64) -> Effect
    ensures { result ≡ effect_of x y }
{
    if x == y {
        Effect::Kept(x)
    } else {
        Effect::Moved(x, y)
    }
}

// Plus zero for minus zero; any other double as it is.
fn plus_for_minus(x: f64) -> f64
    ensures { result ≡ plus_for_minus x }
{
    if x == 0.0 { 0.0 } else { x }
}

// The two doubles and the mark are written, 35 bytes.
#[tactic(auto, using(crate::proofs::Written::put_fields_lem))]
fn put_fields(out: &mut [u8], at: usize, given: f64, kept: f64, mark: u8)
    requires { (at + 35 ≤ length out.old) × T (not (is_nan given)) × T (not (is_nan kept)) }
    ensures { out.new ≡ put_at out.old at (fields_text given kept mark) }
{
    hexadecimal::put_hex(out, at, 16, f64::to_bits(given));
    out[at + 16] = b' ';
    hexadecimal::put_hex(out, at + 17, 16, f64::to_bits(kept));
    out[at + 33] = b' ';
    out[at + 34] = mark;
}

// The same of what rounding did.
fn put_effect(out: &mut [u8], at: usize, e: Effect)
    requires { (at + 35 ≤ length out.old) × T (not (is_nan (given e))) × T (not (is_nan (kept e))) }
    ensures { out.new ≡ put_at out.old at (effect_text e) }
{
    match e {
        Effect::Kept(x) => put_fields(out, at, x, plus_for_minus(x), b'K'),
        Effect::Moved(x, y) => put_fields(out, at, x, y, b'M'),
    }
}

// The line of a design number is written, 44 bytes.
#[tactic(auto, using(crate::proofs::Written::put_line_lem))]
pub fn put_line(out: &mut [u8], at: usize, d: Due, e: Effect)
    requires { (at + 44 ≤ length out.old) × T (not (is_nan (given e))) × T (not (is_nan (kept e))) }
    ensures { out.new ≡ put_at out.old at (line_text d e) }
{
    hexadecimal::put_hex(out, at, 2, d.kind as u64);
    out[at + 2] = b' ';
    hexadecimal::put_hex(out, at + 3, 2, d.row as u64);
    hexadecimal::put_hex(out, at + 5, 2, d.column as u64);
    out[at + 7] = b' ';
    put_effect(out, at + 8, e);
    out[at + 43] = b'\n';
}
