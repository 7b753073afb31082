// The design page of a sheet: what rounding did to each design number, a line each.
#![tactic(auto)]

ghost use Rattle.std.specs.Prelude.{◌≡◌, cond, ℕ, ◌+◌, ◌*◌, ◌<◌, ◌≤◌, eqb, length};
ghost use Rattle.refusal.specs.Number.{number_of};
ghost use Rattle.word.specs.Buffer.{put_at};
ghost use Rattle.image.specs.Sizes.{Sound};
ghost use Rattle.frame.specs.Frame.{total};
ghost use Rattle.lines.specs.Lines.{line_fault, line_word};
ghost use Rattle.sheet.specs.Sheet.{lines_words};
ghost use Rattle.design_page.specs.Page.{page_line, lines_page, sheet_page, page_number};

use image::Sizes;
use refusal::Refusal;

// The line of design number i is written at its place: the double is read from the sheet again, its word is known.
fn put_number(page: &mut [u8], s: &[u8], z: Sizes, i: usize, word: i64)
    requires { Sound z × (i < total z) × (line_fault z s.now i ≡ 0) × (word ≡ line_word z s.now i) × (44 * (i + 1) ≤ length page.old) }
    ensures { page.new ≡ put_at page.old (44 * i) (page_line z s.now i) }
{
    let d = frame::due_at(z, i);
    let given = frame::value_of(d, line::line_at(s, 23 * (i + 1))).unwrap_or(0.0);
    let kept = double::answered(double::to_double(word, z.b, z.w));
    page_line::put_line(page, 44 * i, d, page_line::effect_of(given, kept));
}

// The lines of all design numbers are written.
fn put_numbers(page: &mut [u8], s: &[u8], z: Sizes, words: &[i64])
    requires { Sound z × ((i : ℕ) → i < total z → line_fault z s.now i ≡ 0) × (words.now ≡ lines_words z s.now) × (length page.old ≡ 44 * total z) }
    ensures { page.new ≡ lines_page z s.now }
{
    for i in 0..z.body_count() {
        put_number(page, s, z, i, words[8 + i]);
    }
}

// The call: the page of an accepted sheet is written.
pub fn write_page(sheet: &[u8], page: &mut [u8]) -> Result<(), Refusal>
    ensures number { number_of result ≡ page_number sheet.now (length page.old) }
    ensures bytes { page.new ≡ cond (eqb (number_of result) 0) (sheet_page sheet.now) page.old }
{
    let mut words = [0; 569];
    let count = intake::read_design(&mut words, sheet)?;
    if page.len() != 44 * (count - 8) {
        return Err(Refusal::Buffer);
    }
    let z = frame::head_of(line::line_at(sheet, 0))?; // an accepted sheet has sizes
    put_numbers(page, sheet, z, &words[..count]);
    Ok(())
}
