// The intake of a design sheet: the checks of the tables on the words that were read, and the call that writes the image.
#![tactic(auto)]

ghost use Rattle.std.specs.Prelude.{◌≡◌, cond, ◌*◌, eqb, length};
ghost use Rattle.refusal.specs.Number.{number_of};
ghost use Rattle.word.specs.Word.{words_out};
ghost use Rattle.sheet.specs.Sheet.{sheet_words};
ghost use Rattle.sheet.specs.Reading.{Answered, count_of};
ghost use Rattle.intake.specs.Intake.{own_tables, design_number, intake_number, intake_image, ImageWords};

use image::Image;
use refusal::Refusal;

// The checks of the tables, 7, 17 and 8 to 12. They stand once, on an image's bytes, so the words are written to a buffer first.
fn check_own_tables(buffer: &mut [u8], words: &[i64]) -> Result<(), Refusal>
    requires { ImageWords words.now × (length buffer.old ≡ 4 * length words.now) }
    ensures { number_of result ≡ own_tables (words_out words.now) }
{
    word::put_words(buffer, words);
    tables::check_tables(&Image::of(buffer))
}

// Reads a sheet and tests it: lines and end, then the tables. So many words of the lent array are its image's.
pub fn read_design(words: &mut [i64; 569], sheet: &[u8]) -> Result<usize, Refusal>
    requires { length words.old ≡ 569 }
    ensures { Answered (design_number sheet.now) (sheet_words sheet.now) (number_of result) (count_of result) words.new }
{
    let count = sheet::read_sheet(words, sheet)?;
    let mut buffer = [0; 2276];
    let all = &words[..]; // the checker takes a part of a slice, not of a lent array
    check_own_tables(&mut buffer[..4 * count], &all[..count])?;
    Ok(count)
}

// The call: the image of an accepted sheet is written.
pub fn intake(sheet: &[u8], image: &mut [u8]) -> Result<(), Refusal>
    ensures number { number_of result ≡ intake_number sheet.now (length image.old) }
    ensures bytes { image.new ≡ cond (eqb (number_of result) 0) (intake_image sheet.now) image.old }
{
    let mut words = [0; 569];
    let count = read_design(&mut words, sheet)?;
    if image.len() != 4 * count {
        return Err(Refusal::Buffer);
    }
    word::put_words(image, &words[..count]);
    Ok(())
}
