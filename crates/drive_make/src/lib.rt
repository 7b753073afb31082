// Make: a new drive in the caller's buffer. An image in a drive, for make and for a new image.
#![tactic(auto)]

ghost use Rattle.std.specs.Prelude.{◌≡◌, cond, ◌≤◌, eqb, length};
ghost use Rattle.refusal.specs.Number.{number_of};
ghost use Rattle.drive.specs.Layout.{drive_length, image_room};
ghost use Rattle.drive.specs.Calls.{imaged_number, imaged, make_number, make_drive};

use drive::{COUNT_PLACE, IMAGE_PLACE, LENGTH_PLACE};
use refusal::Refusal;

// The checks of the image, then 15 for the drive's length.
#[tactic(auto, using(image::proofs::Ordering::handed_on, image::proofs::Ordering::went_on), unfolding(drive::specs::Calls::imaged_number))]
pub fn check_imaged(image: &[u8], room: usize) -> Result<(), Refusal>
    ensures { number_of result ≡ imaged_number image.now room }
{
    tables::check_image(image)?;
    drive_parts::check_length(room)
}

// The image and its length, and zeros for every head; the heads' number and the sweeps stay.
#[tactic(auto, using(word::proofs::Beside::put_lent), unfolding(drive::specs::Calls::imaged))]
pub fn put_image(image: &[u8], drive: &mut [u8])
    requires { (length image.now ≤ image_room) × (length drive.old ≡ drive_length) }
    ensures { drive.new ≡ imaged drive.old image.now }
{
    drive[LENGTH_PLACE..COUNT_PLACE].fill(0);
    let length = image.len();
    word::put_nat(drive, LENGTH_PLACE, length as u64);
    drive_parts::copy(image, &mut drive[IMAGE_PLACE..IMAGE_PLACE + length]);
}

// 3 for the number of heads, then the checks of the image and of the drive's length.
#[tactic(auto, using(image::proofs::Ordering::handed_on, image::proofs::Ordering::went_on), unfolding(drive::specs::Calls::make_number))]
fn check_make(image: &[u8], heads: u64, room: usize) -> Result<(), Refusal>
    ensures { number_of result ≡ make_number image.now heads room }
{
    drive_parts::check_count(heads)?;
    check_imaged(image, room)
}

// Zeros, then the image and the number of heads.
#[tactic(auto, unfolding(drive::specs::Calls::make_drive, drive::specs::Calls::blank_drive))]
fn fill(image: &[u8], heads: u64, drive: &mut [u8])
    requires { (length image.now ≤ image_room) × (length drive.old ≡ drive_length) }
    ensures { drive.new ≡ make_drive image.now heads }
{
    drive.fill(0);
    put_image(image, drive);
    word::put_nat(drive, COUNT_PLACE, heads);
}

// Makes a drive that holds the image and of each head a start of zeros, no waiting answer and no sweeps.
#[tactic(auto, using(drive::proofs::Accept::makeable, drive::proofs::AllHeads::image_fits))]
pub fn make(image: &[u8], heads: u32, drive: &mut [u8]) -> Result<(), Refusal>
    ensures number { number_of result ≡ make_number image.now heads (length drive.old) }
    ensures drive { drive.new ≡ cond (eqb (number_of result) 0) (make_drive image.now heads) drive.old }
{
    check_make(image, u64::from(heads), drive.len())?;
    fill(image, u64::from(heads), drive);
    Ok(())
}
