// The design sheet, read line by line: its number through lines and end, and its image's words.
#![tactic(auto)]

ghost use Rattle.std.specs.Prelude.{◌≡◌, List, ◌++◌, ℕ, ◌+◌, ◌*◌, ◌<◌, Float, drop, length};
ghost use Rattle.image.specs.Sizes.{Sound};
ghost use Rattle.refusal.specs.Number.{number_of};
ghost use Rattle.lines.specs.Lines.{size_words};
ghost use Rattle.sheet.specs.Sheet.{sheet_number, sheet_words};
ghost use Rattle.sheet.specs.Reading.{Answered, count_of};

use image::Sizes;
use line::Reader;
use refusal::Refusal;

// The sizes stand in front.
fn put_sizes(words: &mut [i64; 569], z: Sizes)
    requires { Sound z × (length words.old ≡ 569) }
    ensures { words.new ≡ size_words z ++ drop 8 words.old }
{
    words[0] = z.nu as i64;
    words[1] = z.steps as i64;
    words[2] = z.nx as i64;
    words[3] = i64::from(z.b);
    words[4] = i64::from(z.w);
    words[5] = z.sweeps as i64;
    words[6] = z.nr as i64;
    words[7] = 0;
}

// Reads a sheet line by line, with one reader, through its lines and end: so many words of the lent array are its image's.
pub fn read_sheet(words: &mut [i64; 569], s: &[u8]) -> Result<usize, Refusal>
    requires { length words.old ≡ 569 }
    ensures { Answered (sheet_number s.now) (sheet_words s.now) (number_of result) (count_of result) words.new }
{
    let mut reader = Reader { sheet: s, at: 0 };
    let z = frame::head_of(reader.next_line())?;
    put_sizes(words, z);
    let total = z.body_count();
    let mut lows = [0.0; 16];
    for i in 0..total {
        lines::take_line(words, &mut lows, reader.next_line(), z, i)?;
    }
    if reader.at < s.len() {
        return Err(Refusal::Count);
    }
    Ok(8 + total)
}
