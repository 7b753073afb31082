// The parts of a drive in the buffer that the caller lends, and the checks of that buffer. Buffer and head stay two parameters: the readers lend
// slices and an image, but a call writes to the buffer after its checks, so a type over both would be made twice in each.
#![tactic(auto)]

ghost use Rattle.std.specs.Prelude.{◌≡◌, ◌^◌, ◌<◌, IfOk, length};
ghost use Rattle.refusal.specs.Number.{number_of};
ghost use Rattle.image.specs.Layout.{sizes_of};
ghost use Rattle.image.specs.Order.{buffer_number};
ghost use Rattle.interface.specs.Calls.{answer_length};
ghost use Rattle.device.specs.Device.{most_heads};
ghost use Rattle.device.specs.Call.{count_number};
ghost use Rattle.drive.specs.Layout.{drive_length, held_image, held_start, held_answer, held_count, held_own, held_common};
ghost use Rattle.drive.specs.Calls.{idle_at, place_number, parts_number};
ghost use Rattle.drive.specs.Parts.{Found};

use drive::{
    COMMON_PLACE, COUNT_PLACE, DRIVE_LENGTH, IMAGE_PLACE, IMAGE_ROOM, LENGTH_PLACE, MOST_HEADS,
};
use image::Image;
use refusal::Refusal;

// How many heads the drive says that it has.
#[tactic(auto, unfolding(drive::specs::Layout::held_count))]
pub fn held_count(drive: &[u8]) -> u64
    requires { length drive.now ≡ drive_length }
    ensures { (result ≡ held_count drive.now) × (result < 2 ^ 32) }
{
    word::nat_at(drive, COUNT_PLACE)
}

// What head k has left of its own share.
#[tactic(auto, unfolding(drive::specs::Layout::held_own))]
pub fn held_own(drive: &[u8], k: usize) -> u64
    requires { (k < most_heads) × (length drive.now ≡ drive_length) }
    ensures { (result ≡ held_own drive.now k) × (result < 2 ^ 32) }
{
    word::nat_at(drive, drive::own_place(k))
}

// What is left of the common part.
#[tactic(auto, unfolding(drive::specs::Layout::held_common))]
pub fn held_common(drive: &[u8]) -> u64
    requires { length drive.now ≡ drive_length }
    ensures { (result ≡ held_common drive.now) × (result < 2 ^ 32) }
{
    word::nat_at(drive, COMMON_PLACE)
}

// Whether no answer of head k waits.
#[tactic(auto, unfolding(drive::specs::Layout::held_waiting))]
pub fn is_idle(drive: &[u8], k: usize) -> bool
    requires { (k < most_heads) × (length drive.now ≡ drive_length) }
    ensures { result ≡ idle_at drive.now k }
{
    word::nat_at(drive, drive::waiting_place(k)) == 0
}

// The bytes of the held image.
#[tactic(auto, using(drive::proofs::Parts::image_part))]
pub fn held_bytes(drive: &[u8]) -> &[u8]
    requires { length drive.now ≡ drive_length }
    ensures { result.now ≡ held_image drive.now }
{
    let length = word::nat_at(drive, LENGTH_PLACE) as usize;
    let end = IMAGE_PLACE + length.min(IMAGE_ROOM);
    &drive[IMAGE_PLACE..end]
}

// The bytes of one buffer, written to another of the same length. std's copy_from_slice binds memmove, which a firmware need not supply.
pub fn copy(from: &[u8], to: &mut [u8])
    requires { length to.old ≡ length from.now }
    ensures { to.new ≡ from.now }
{
    for (i, byte) in from.iter().enumerate() {
        to[i] = *byte;
    }
}

// Check 3 of a number of heads.
pub fn check_count(heads: u64) -> Result<(), Refusal>
    ensures { number_of result ≡ count_number heads }
{
    if (1..=MOST_HEADS as u64).contains(&heads) {
        Ok(())
    } else {
        Err(Refusal::Size)
    }
}

// Check 15 of a drive's length.
pub fn check_length(room: usize) -> Result<(), Refusal>
    ensures { number_of result ≡ buffer_number drive_length room }
{
    if room == DRIVE_LENGTH {
        Ok(())
    } else {
        Err(Refusal::Buffer)
    }
}

// Check 3 for a head that no drive has, 15 for the drive's length, 3 for a head that this drive has not.
#[tactic(auto, using(image::proofs::Ordering::buffer_length, image::proofs::Ordering::handed_on, image::proofs::Ordering::went_on), unfolding(drive::specs::Calls::place_number))]
pub fn check_place(drive: &[u8], k: usize) -> Result<(), Refusal>
    ensures { number_of result ≡ place_number drive.now k }
{
    if MOST_HEADS <= k {
        return Err(Refusal::Size);
    }
    check_length(drive.len())?;
    if held_count(drive) <= k as u64 {
        return Err(Refusal::Size);
    }
    Ok(())
}

// The head and the drive's length, then the held image's length and sizes: the held image.
#[tactic(auto, using(drive::proofs::Accept::placed, image::proofs::Ordering::handed_on, image::proofs::Ordering::went_on), unfolding(drive::specs::Calls::parts_number))]
pub fn check_parts(drive: &[u8], k: usize) -> Result<Image<'_>, Refusal>
    ensures number { number_of result ≡ parts_number drive.now k }
    ensures image { IfOk result (λ i. (i.bytes.now ≡ held_image drive.now) × (i.sizes ≡ sizes_of (held_image drive.now))) }
{
    check_place(drive, k)?;
    integrity::check_head(held_bytes(drive))
}

// The held image.
pub fn held_image(drive: &[u8]) -> Image<'_>
    requires { Found drive.now }
    ensures { (result.bytes.now ≡ held_image drive.now) × (result.sizes ≡ sizes_of (held_image drive.now)) }
{
    Image::of(held_bytes(drive))
}

// The start of head k.
#[tactic(auto, using(drive::proofs::Parts::start_part))]
pub fn held_start(drive: &[u8], k: usize) -> &[u8]
    requires { Found drive.now × (k < most_heads) }
    ensures { result.now ≡ held_start drive.now k }
{
    let place = drive::start_place(k);
    let end = place + 4 * held_image(drive).sizes.command_count();
    &drive[place..end]
}

// The answer of head k.
#[tactic(auto, using(drive::proofs::Parts::answer_part))]
pub fn held_answer(drive: &[u8], k: usize) -> &[u8]
    requires { Found drive.now × (k < most_heads) }
    ensures bytes { result.now ≡ held_answer drive.now k }
    ensures size { length result.now ≡ answer_length (sizes_of (held_image drive.now)) }
{
    let place = drive::answer_place(k);
    let end = place + (8 * held_image(drive).sizes.command_count() + 8);
    &drive[place..end]
}
