// Design doubles to words and back.
#![tactic(auto)]

ghost use Rattle.std.specs.Prelude.{◌≡◌, ◌^◌, ◌≤◌, IfOk, true, false, pos, from_bits, unsigned_abs};
ghost use Rattle.std.specs.Float.{binary64, fin};
ghost use Rattle.std.specs.Float.Ieee.{mul, lt, round};
ghost use Rattle.double.specs.Double.{power, rounded, rounded_word, round_down, round_nearest, rule_of, convert, conversion_number, converted_number, convert_limits, limits_number, limit_words_number, is_negative, answered_value, double_number, double_value, double_answer, HasQuotient};
ghost use Rattle.refusal.specs.Number.{number_of};

use refusal::Refusal;

// How a value between two counts is rounded.
#[derive(Clone, Copy)]
pub enum Rounding {
    Down,
    Up,
    // to the nearer count, and at a tie to the even one
    Nearest,
}

// A motor's limits, which travel together as doubles until both are rounded.
#[derive(Clone, Copy)]
pub struct Limits {
    pub low: f64,
    pub high: f64,
}

// 2^b as a double.
fn power_of_two(b: u32) -> f64
    requires { b ≤ 20 }
    ensures { result ≡ power b }
{
    (1u32 << b) as f64
}

// x * 2^b: the exact product, or an infinity.
fn scaled(x: f64, b: u32) -> f64
    requires { b ≤ 20 }
    ensures { result ≡ mul binary64 x (power b) }
{
    x * power_of_two(b)
}

// The floor of y. Truncation loses less than 1, and the integer as a double again tells on which side.
fn floor_integer(y: f64) -> i64
    requires { (lt (fin true 1 (pos 32)) y ≡ true) × (lt y (fin false 1 (pos 32)) ≡ true) }
    ensures { result ≡ rounded round_down 0 y }
{
    let n = std::num::truncating_f64_to_i64(y);
    if y < n as f64 { n - 1 } else { n }
}

// y rounded to the nearest integer, a tie to the even one, by its floor q. Twice y and twice the middle of q and q + 1 are doubles exactly.
fn nearest_integer(y: f64, q: i64) -> i64
    requires y_value { (lt (fin true 1 (pos 32)) y ≡ true) × (lt y (fin false 1 (pos 32)) ≡ true) }
    requires q_value { q ≡ rounded round_down 0 y }
    ensures { result ≡ rounded round_nearest 0 y }
{
    let twice_y = scaled(y, 1);
    let twice_middle = (2 * q + 1) as f64;
    if twice_y < twice_middle {
        return q;
    }
    if twice_middle < twice_y {
        return q + 1;
    }
    if q % 2 == 0 { q } else { q + 1 }
}

// y rounded to an integer, which is its floor or one more.
fn round_integer(y: f64, how: Rounding) -> i64
    requires { (lt (fin true 1 (pos 32)) y ≡ true) × (lt y (fin false 1 (pos 32)) ≡ true) }
    ensures { result ≡ rounded (rule_of how) 0 y }
{
    let q = floor_integer(y);
    match how {
        Rounding::Down => q,
        Rounding::Up => { if (q as f64) < y { q + 1 } else { q } }
        Rounding::Nearest => nearest_integer(y, q),
    }
}

// y rounded, as a word of w bits. A NaN fails the first test; beyond ±2^32 no rounding gives a word.
fn rounded_word(y: f64, w: u32, how: Rounding) -> Option<i64>
    requires { (1 ≤ w) × (w ≤ 32) }
    ensures { result ≡ rounded_word (rule_of how) w y }
{
    if y > -4294967296.0 && y < 4294967296.0 {
        let n = round_integer(y, how);
        if word::is_word(n, w) {
            return Some(n);
        }
    }
    None
}

// A design double as a word of w bits with b fraction bits.
pub fn to_word(x: f64, b: u32, w: u32, how: Rounding) -> Option<i64>
    ensures { (result ≡ convert (rule_of how) b w x) × (converted_number result ≡ conversion_number (rule_of how) b w x) }
{
    if word::is_format(b, w) {
        rounded_word(scaled(x, b), w, how)
    } else {
        None
    }
}

// A motor's limits as words, rounded inward: the low up, the high down.
pub fn inward(limits: Limits, b: u32, w: u32) -> Option<(i64, i64)>
    ensures { (result ≡ convert_limits b w limits) × (limit_words_number result ≡ limits_number b w limits) }
{
    let low = to_word(limits.low, b, w, Rounding::Up)?;
    let high = to_word(limits.high, b, w, Rounding::Down)?;
    Some((low, high))
}

// z / 2^b: each of the two is a double exactly.
fn quotient(z: i64, b: u32) -> f64
    requires { (b ≤ 20) × (unsigned_abs z ≤ 2 ^ 53) }
    ensures { result ≡ round binary64 (is_negative z) (unsigned_abs z) (2 ^ b) }
{
    (z as f64) / power_of_two(b)
}

// The double of a word of w bits with b fraction bits, for any z. A refusal's is plus zero: `answered`.
pub fn to_double(z: i64, b: u32, w: u32) -> Result<f64, Refusal>
    ensures answer { result ≡ double_answer b w z }
    ensures number { number_of result ≡ double_number b w z }
    ensures value { answered_value result ≡ double_value b w z }
    ensures exact { IfOk result (λ x. HasQuotient x z (2 ^ b)) }
{
    if !word::is_format(b, w) {
        return Err(Refusal::Size);
    }
    if !word::is_word(z, w) {
        return Err(Refusal::Word);
    }
    Ok(quotient(z, b))
}

// The double that goes with an answer: plus zero with either number of a refusal.
pub fn answered(answer: Result<f64, Refusal>) -> f64
    ensures { result ≡ answered_value answer }
{
    answer.unwrap_or(0.0)
}

// The double with this bit pattern. Every NaN pattern is the one NaN, which has no pattern of its own to keep.
pub fn of_pattern(n: u64) -> f64
    ensures { result ≡ from_bits binary64 n }
{
    if n % 0x8000_0000_0000_0000 > 0x7ff0_0000_0000_0000 {
        0.0 / 0.0
    } else {
        f64::from_bits(n)
    }
}
