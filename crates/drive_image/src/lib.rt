// New image: another image for every head, in a drive in which no answer waits.
#![tactic(auto)]

ghost use Rattle.std.specs.Prelude.{◌≡◌, cond, eqb, length};
ghost use Rattle.refusal.specs.Number.{number_of};
ghost use Rattle.gradient.specs.Index.{all_to};
ghost use Rattle.drive.specs.Layout.{drive_length, held_heads};
ghost use Rattle.drive.specs.Calls.{imaged, idle_at, new_number};

use drive::MOST_HEADS;
use refusal::Refusal;

// How many heads the drive has, and no more than there are bytes for.
fn held_heads(drive: &[u8]) -> usize
    requires { length drive.now ≡ drive_length }
    ensures { result ≡ held_heads drive.now }
{
    let heads = drive_parts::held_count(drive) as usize;
    heads.min(MOST_HEADS)
}

// Whether no head has a waiting answer.
fn all_idle(drive: &[u8]) -> bool
    requires { length drive.now ≡ drive_length }
    ensures { result ≡ all_to (idle_at drive.now) (held_heads drive.now) }
{
    (0..held_heads(drive)).all(|k| drive_parts::is_idle(drive, k))
}

// The checks of the image, 15 for the drive's length, 19.
#[tactic(auto, using(drive::proofs::Accept::imageable, image::proofs::Ordering::handed_on, image::proofs::Ordering::went_on), unfolding(drive::specs::Calls::new_number))]
fn check_new(drive: &[u8], image: &[u8]) -> Result<(), Refusal>
    ensures { number_of result ≡ new_number drive.now image.now }
{
    drive_make::check_imaged(image, drive.len())?;
    if all_idle(drive) {
        Ok(())
    } else {
        Err(Refusal::Waiting)
    }
}

// Replaces the image for every head, and sets their starts to zero.
#[tactic(auto, using(drive::proofs::Accept::renewable, drive::proofs::AllHeads::image_fits))]
pub fn new_image(drive: &mut [u8], image: &[u8]) -> Result<(), Refusal>
    ensures number { number_of result ≡ new_number drive.old image.now }
    ensures drive { drive.new ≡ cond (eqb (number_of result) 0) (imaged drive.old image.now) drive.old }
{
    check_new(drive, image)?;
    drive_make::put_image(image, drive);
    Ok(())
}
