// What the label program prints, from the bytes of its files.
#![tactic(auto)]

ghost use Rattle.std.specs.Prelude.{◌≡◌, ◌≤◌, length, IfOk};
ghost use Rattle.refusal.specs.Number.{number_of};
ghost use Rattle.interface.specs.Tables.{image_number};
ghost use Rattle.intake.specs.Intake.{intake_image, intake_number};
ghost use Rattle.text.specs.Text.{text_room, written};
ghost use Rattle.label_text.specs.Label.{target_count, image_text, label_text};

use image::Image;
use refusal::Refusal;
use text::{LABEL_ROOM, Text};

// Room for the largest image.
const IMAGE_ROOM: usize = 2276;

// The image of a sheet. Reading the sheet once before tells the image's length, which the intake asks for.
fn read_drive(drive: &[u8]) -> Result<Text<IMAGE_ROOM>, Refusal>
    ensures number { number_of result ≡ intake_number drive.now (length (intake_image drive.now)) }
    ensures image { IfOk result (λ image. image ≡ intake_image drive.now) }
{
    let mut words = [0; 569];
    let size = 4 * sheet::read_sheet(&mut words, drive)?;
    let mut image = [0; IMAGE_ROOM];
    gantry::gantry_intake(drive, &mut image[..size])?;
    Ok(Text::new(image, size))
}

// The number of target values that line 01 of a sheet gives.
#[tactic(auto, unfolding(crate::specs::Label::target_count))]
pub fn target_count(drive: &[u8]) -> usize
    ensures { result ≡ target_count drive.now }
{
    frame::head_of(line::line_at(drive, 0)).map_or(0, |z| z.nr)
}

// The label of an accepted image. Its own cold start is refused by none.
fn image_text(bytes: &[u8], state: &[u8], target: &[u8]) -> Result<Text<LABEL_ROOM>, Refusal>
    requires { image_number bytes.now ≡ 0 }
    ensures { written result ≡ image_text bytes.now state.now target.now }
{
    let image = Image::of(bytes);
    let z = image.sizes;
    label_files::check_files(&image, state, target)?;
    let n = z.command_count();
    let x = word_file::file_words(state, z.nx);
    let r = word_file::file_words(target, z.nr);
    let mut start = [0; 64];
    gantry::gantry_cold_start(bytes, &mut start[..4 * n])?;
    let mut answer = [0; 136];
    gantry::gantry_solve(
        bytes,
        &x[..4 * z.nx],
        &r[..4 * z.nr],
        &start[..4 * n],
        &mut answer[..8 * n + 8],
    )?;
    Ok(text::lines_of(&answer[..8 * n + 8], n))
}

// The label, or why there is none.
fn drive_text(drive: &[u8], state: &[u8], target: &[u8]) -> Result<Text<LABEL_ROOM>, Refusal>
    ensures { written result ≡ label_text drive.now state.now target.now }
{
    let image = read_drive(drive)?;
    image_text(image.as_bytes(), state, target)
}

// What the label program prints.
pub fn label(drive: &[u8], state: &[u8], target: &[u8]) -> Text<LABEL_ROOM>
    ensures text { result ≡ label_text drive.now state.now target.now }
    ensures room { length result ≤ text_room }
{
    Text::written(drive_text(drive, state, target))
}
