// What the page program prints, from the bytes of its file.
#![tactic(auto)]

ghost use Rattle.std.specs.Prelude.{◌≡◌, ◌≤◌, length, take};
ghost use Rattle.image.specs.Sizes.{Sound};
ghost use Rattle.design_page.specs.Page.{design_count};
ghost use Rattle.page_text.specs.Text.{page_text};

// Room for the largest page: 561 lines of 44 bytes.
pub const PAGE_ROOM: usize = 24684;

// How many design numbers line 01 of a sheet gives.
#[tactic(auto, using(frame::proofs::Laws::total_is), unfolding(design_page::specs::Page::design_count))]
fn design_count(drive: &[u8]) -> usize
    ensures { result ≡ design_count drive.now }
{
    frame::head_of(line::line_at(drive, 0)).map_or(
        0,
        |z|
            requires { Sound z }
        { z.body_count() },
    )
}

// Writes what the page program prints in front of a buffer that has room for the largest page, and answers its length. The buffer is lent: a text
// by value would take three times the stack of the program.
pub fn page(drive: &[u8], out: &mut [u8]) -> usize
    requires { 24684 ≤ length out.old }
    ensures { (result ≤ 24684) × (take result out.new ≡ page_text drive.now) }
{
    let length = 44 * design_count(drive);
    match gantry::gantry_page(drive, &mut out[..length]) {
        Ok(()) => length,
        Err(why) => {
            text::put_refusal(out, why.into());
            11
        }
    }
}
