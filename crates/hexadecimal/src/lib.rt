// Hexadecimal digits in byte slices.
#![tactic(auto)]

ghost use Rattle.std.specs.Prelude.{◌≡◌, ◌+◌, ◌^◌, ◌<◌, ◌≤◌, length};
ghost use Rattle.word.specs.Buffer.{put_at};
ghost use Rattle.hexadecimal.specs.Hex.{is_hex, digit_of, hexes, hex_at, digit_byte, hex_digits};

// Whether a byte is a hexadecimal digit, 0 to 9 or A to F.
#[tactic(auto, unfolding(crate::specs::Hex::is_hex))]
pub fn is_hex(c: u8) -> bool
    ensures { result ≡ is_hex c }
{
    matches!(c, b'0'..=b'9' | b'A'..=b'F')
}

// Whether the k bytes from `at` on are there and are digits.
#[tactic(auto, using(crate::proofs::Hex::hexes_cut), unfolding(crate::specs::Hex::hexes))]
pub fn are_hex(s: &[u8], at: usize, k: usize) -> bool
    ensures { result ≡ hexes k s.now at }
{
    k == 0 || (k <= s.len() && at <= s.len() - k && all_hex(s, at, k))
}

// The same of bytes that are there.
fn all_hex(s: &[u8], at: usize, k: usize) -> bool
    requires { at + k ≤ length s.now }
    ensures { result ≡ hexes k s.now at }
{
    s[at..at + k].iter().all(|c| is_hex(*c))
}

// The value of a digit; 0 for any other byte.
#[tactic(auto, unfolding(crate::specs::Hex::is_hex, crate::specs::Hex::digit_of))]
pub fn digit(c: u8) -> u64
    ensures { (result ≡ digit_of c) × (result < 16) }
{
    match c {
        b'0'..=b'9' => u64::from(c - b'0'),
        b'A'..=b'F' => u64::from(c - b'A') + 10,
        _ => 0,
    }
}

// The number of k digits.
pub fn hex_at(s: &[u8], at: usize, k: usize) -> u64
    requires { (at + k ≤ length s.now) × (k ≤ 16) }
    ensures { (result ≡ hex_at k s.now at) × (result < 16 ^ k) }
{
    let mut n: u64 = 0;
    for i in 0..k {
        n = n * 16 + digit(s[at + i]);
    }
    n
}

// The byte of a digit.
#[tactic(auto, unfolding(crate::specs::Hex::digit_byte))]
pub fn digit_byte(d: u64) -> u8
    requires { d < 16 }
    ensures { result ≡ digit_byte d }
{
    let d = d as u8;
    if d < 10 { b'0' + d } else { b'A' + (d - 10) }
}

// The last k digits of n are written, the last one first.
pub fn put_hex(out: &mut [u8], at: usize, k: usize, n: u64)
    requires { at + k ≤ length out.old }
    ensures { out.new ≡ put_at out.old at (hex_digits k n) }
{
    let mut m = n;
    for i in (0..k).rev() {
        out[at + i] = digit_byte(m % 16);
        m /= 16;
    }
}
