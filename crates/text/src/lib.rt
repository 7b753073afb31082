// The lines that the programs print: those of a label, and the line of a refusal.
#![tactic(auto)]

ghost use Rattle.std.specs.Prelude.{◌≡◌, ◌+◌, ◌*◌, ◌≤◌, length, take};
ghost use Rattle.word.specs.Buffer.{put_at};
ghost use Rattle.text.specs.Text.{distance_digits, line_of, lines, refusal, text_room, written};

use refusal::Refusal;
use std::marker::Model;

// Room for the longest label: 16 lines of 35 bytes.
pub const LABEL_ROOM: usize = 560;

// A text of at most N bytes, in front of an array.
#[derive(Drop)]
pub struct Text<const N: usize> {
    bytes: [u8; N],
    len: usize,
}

impl<const N: usize> Model for Text<N> {
    ghost use Rattle.std.specs.Prelude.{◌≤◌, List, ℕ, take};

    ghost Value = { List ℕ };

    ghost view = { λ t. take t.len t.bytes };

    ghost invariant = { λ t. t.len ≤ N };
}

impl<const N: usize> Text<N> {
    // The front of an array.
    pub fn new(bytes: [u8; N], len: usize) -> Self
        requires { len ≤ N }
        ensures text { result ≡ take len bytes.entry }
        ensures room { length result ≤ N }
    {
        Text { bytes, len }
    }

    // The line of a refusal.
    pub fn refused(number: u32) -> Self
        requires { 11 ≤ N }
        ensures text { result ≡ refusal number }
        ensures room { length result ≤ N }
    {
        let mut bytes = [0; N];
        put_refusal(&mut bytes, number);
        Text { bytes, len: 11 }
    }

    // A text, or the line of why there is none.
    pub fn written(text: Result<Self, Refusal>) -> Self
        requires { 11 ≤ N }
        ensures text { result ≡ written text.entry }
        ensures room { length result ≤ N }
    {
        match text {
            Ok(text) => {
                let _ = &text.len; // which opens the text, for its room
                text
            }
            Err(why) => Self::refused(why.into()),
        }
    }

    pub fn as_bytes(&self) -> &[u8]
        ensures text { result.now ≡ self.now }
        ensures room { length result.now ≤ N }
    {
        &self.bytes[..self.len]
    }
}

// How many digits D takes, on every line the same.
#[tactic(auto, unfolding(crate::specs::Text::distance_digits))]
fn distance_digits(d: u64) -> usize
    ensures { (result ≡ distance_digits d) × (result ≤ 16) }
{
    if d < 4294967296 { 8 } else { 16 }
}

fn put_line(out: &mut [u8], at: usize, command: u64, bound: u64, digits: usize, d: u64)
    requires { at + (19 + digits) ≤ length out.old }
    ensures { out.new ≡ put_at out.old at (line_of command bound digits d) }
{
    hexadecimal::put_hex(out, at, 8, command);
    out[at + 8] = b' ';
    hexadecimal::put_hex(out, at + 9, 8, bound);
    out[at + 17] = b' ';
    hexadecimal::put_hex(out, at + 18, digits, d);
    out[at + (18 + digits)] = b'\n';
}

// The lines of an answer: n commands, then their bounds, then D.
pub fn lines_of(answer: &[u8], n: usize) -> Text<LABEL_ROOM>
    requires { (n ≤ 16) × (length answer.now ≡ 8 * n + 8) }
    ensures text { result ≡ lines n answer.now n }
    ensures room { length result ≤ text_room }
{
    let d = word::pattern_at(answer, 8 * n);
    let digits = distance_digits(d);
    let size = 19 + digits;
    let mut bytes = [0; LABEL_ROOM];
    for k in 0..n {
        let command = word::nat_at(answer, 4 * k);
        let bound = word::nat_at(answer, 4 * (n + k));
        put_line(&mut bytes, size * k, command, bound, digits, d);
    }
    Text {
        bytes,
        len: size * n,
    }
}

// The line of a refusal, in front of a buffer. No `write!`: it promises its bytes only where it answers Ok, which no writer promises.
pub fn put_refusal(out: &mut [u8], number: u32)
    requires { 11 ≤ length out.old }
    ensures { out.new ≡ put_at out.old 0 (refusal number) }
{
    out[..8].copy_from_slice(b"refused ");
    out[8] = (48 + number / 10 % 10) as u8;
    out[9] = (48 + number % 10) as u8;
    out[10] = b'\n';
}
