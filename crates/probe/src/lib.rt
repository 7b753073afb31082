// Test exports: the conversions of `double` by themselves, for the second program. The shipped archive does not hold them.
#![tactic(auto)]

ghost use Rattle.std.specs.Prelude.{◌≡◌, cond, eqb, length};
ghost use Rattle.probe.specs.Probe.{rounding_of, word_number, word_answer, limits_number, limits_answer, double_number, double_answer};

use double::{Limits, Rounding};
use refusal::Refusal;

fn rounding(how: u32) -> Rounding
    ensures { result ≡ rounding_of how }
{
    match how {
        0 => Rounding::Down,
        1 => Rounding::Up,
        _ => Rounding::Nearest,
    }
}

// A double's pattern as a word.
#[unsafe(no_mangle)]
pub extern "C" fn probe_to_word(bits: u64, b: u32, w: u32, how: u32, out: &mut [u8]) -> u32
    ensures number { result ≡ word_number bits b w how (length out.old) }
    ensures bytes { out.new ≡ cond (eqb result 0) (word_answer bits b how) out.old }
{
    if out.len() != 4 {
        return Refusal::Buffer.into();
    }
    match double::to_word(double::of_pattern(bits), b, w, rounding(how)) {
        Some(z) => {
            word::put_word(out, 0, z);
            0
        }
        None => Refusal::Word.into(),
    }
}

// A motor's limits as words, the low one first.
#[unsafe(no_mangle)]
pub extern "C" fn probe_inward(low: u64, high: u64, b: u32, w: u32, out: &mut [u8]) -> u32
    ensures number { result ≡ limits_number low high b w (length out.old) }
    ensures bytes { out.new ≡ cond (eqb result 0) (limits_answer low high b) out.old }
{
    if out.len() != 8 {
        return Refusal::Buffer.into();
    }
    let limits = Limits {
        low: double::of_pattern(low),
        high: double::of_pattern(high),
    };
    match double::inward(limits, b, w) {
        Some((low, high)) => {
            word::put_word(out, 0, low);
            word::put_word(out, 4, high);
            0
        }
        None => Refusal::Word.into(),
    }
}

// A word's double as its pattern, written with a refusal's number too.
#[unsafe(no_mangle)]
pub extern "C" fn probe_to_double(value: i64, b: u32, w: u32, out: &mut [u8]) -> u32
    ensures number { result ≡ double_number value b w (length out.old) }
    ensures bytes { out.new ≡ cond (eqb result 15) out.old (double_answer value b w) }
{
    if out.len() != 8 {
        return Refusal::Buffer.into();
    }
    let answer = double::to_double(value, b, w);
    word::put_pattern(out, 0, f64::to_bits(double::answered(answer)));
    match answer {
        Ok(_) => 0,
        Err(why) => why.into(),
    }
}
