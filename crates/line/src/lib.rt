// The lines of a design sheet.
#![tactic(auto)]

ghost use Rattle.std.specs.Prelude.{◌≡◌, ◌+◌, ◌<◌, ◌≤◌, ◌^◌, length};
ghost use Rattle.line.specs.Line.{is_frame, line_at, line_number, number_at};

use refusal::Refusal;

// What a line of 22 digits and byte 10 says.
#[derive(Clone, Copy)]
pub struct Frame {
    pub kind: usize,
    pub row: usize,
    pub column: usize,
    pub bits: u64,
}

// Whether the 23 bytes at a place are 22 digits and byte 10.
fn is_frame(s: &[u8], at: usize) -> bool
    requires { at + 23 ≤ length s.now }
    ensures { result ≡ is_frame s.now at }
{
    hexadecimal::are_hex(s, at, 22) && s[at + 22] == b'\n'
}

// The line at a place.
pub fn line_at(s: &[u8], at: usize) -> Result<Frame, Refusal>
    ensures { (result ≡ line_at s.now at) × (line_number result ≡ number_at s.now at) }
{
    if s.len() <= at {
        return Err(Refusal::Count);
    }
    if s.len() - at < 23 {
        return Err(Refusal::Malformed); // a cut line
    }
    if !is_frame(s, at) {
        return Err(Refusal::Malformed);
    }
    Ok(Frame {
        kind: hexadecimal::hex_at(s, at, 2) as usize,
        row: hexadecimal::hex_at(s, at + 2, 2) as usize,
        column: hexadecimal::hex_at(s, at + 4, 2) as usize,
        bits: hexadecimal::hex_at(s, at + 6, 16),
    })
}

// A position in a sheet's text.
#[derive(Clone, Copy)]
pub struct Reader<'a> {
    pub sheet: &'a [u8],
    pub at: usize,
}

impl<'a> Reader<'a> {
    // The line that it stands at. Then it stands behind it: a line has 23 bytes.
    pub fn next_line(&mut self) -> Result<Frame, Refusal>
        requires { self.old.at + 23 < 2 ^ 64 }
        ensures line { (result ≡ line_at self.old.sheet.now self.old.at) × (line_number result ≡ number_at self.old.sheet.now self.old.at) }
        ensures behind { (self.new.sheet ≡ self.old.sheet) × (self.new.at ≡ self.old.at + 23) }
    {
        let line = line_at(self.sheet, self.at);
        self.at += 23;
        line
    }
}
