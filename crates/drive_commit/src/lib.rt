// Commit: the first commands of a head's waiting answer to the caller, the rest, moved on, to its start.
#![tactic(auto)]

ghost use Rattle.std.specs.Prelude.{◌≡◌, cond, ◌+◌, ◌*◌, ◌<◌, ◌≤◌, eqb, length};
ghost use Rattle.refusal.specs.Number.{number_of};
ghost use Rattle.word.specs.Buffer.{put_at};
ghost use Rattle.word.specs.Word.{Words, words_out};
ghost use Rattle.device.specs.Device.{most_heads};
ghost use Rattle.drive.specs.Layout.{start_place, held_image};
ghost use Rattle.drive.specs.Move.{first_length};
ghost use Rattle.drive.specs.Calls.{commit_number, commit_answer, commit_drive};
ghost use Rattle.drive.specs.Parts.{Found};

use drive_parts::{held_answer, held_image};
use refusal::Refusal;

// The head and the drive's length, the held image's length and sizes, 15 for the commands' length, 18.
#[tactic(auto, using(drive::proofs::Accept::found, image::proofs::Ordering::handed_on, image::proofs::Ordering::went_on), unfolding(drive::specs::Calls::commit_number))]
fn check_commit(drive: &[u8], k: usize, room: usize) -> Result<(), Refusal>
    ensures { number_of result ≡ commit_number drive.now k room }
{
    let image = drive_parts::check_parts(drive, k)?;
    if room != 4 * image.sizes.nu {
        return Err(Refusal::Buffer);
    }
    if drive_parts::is_idle(drive, k) {
        return Err(Refusal::Idle);
    }
    Ok(())
}

// The first commands of the head's waiting answer are written.
#[tactic(auto, using(drive::proofs::Parts::first_within), unfolding(drive::specs::Calls::commit_answer, drive::specs::Move::first_commands))]
fn issue(drive: &[u8], k: usize, commands: &mut [u8])
    requires { Found drive.now × (k < most_heads) × (length commands.old ≡ first_length (held_image drive.now)) }
    ensures { commands.new ≡ commit_answer drive.now k }
{
    let answer = held_answer(drive, k);
    let length = commands.len();
    drive_parts::copy(&answer[..length], commands);
}

// Words are written as the head's start.
#[tactic(auto, using(word::proofs::Beside::put_lent, word::proofs::Words::length_words))]
fn put_start(drive: &mut [u8], k: usize, next: &[i64])
    requires { (k < most_heads) × (start_place k + 4 * length next.now ≤ length drive.old) × Words next.now }
    ensures { drive.new ≡ put_at drive.old (start_place k) (words_out next.now) }
{
    let place = drive::start_place(k);
    let end = place + 4 * next.len();
    word::put_words(&mut drive[place..end], next);
}

// The next start is written, and the answer no longer waits.
#[tactic(auto, unfolding(drive::specs::Calls::commit_drive))]
fn move_on(drive: &mut [u8], k: usize)
    requires { Found drive.old × (k < most_heads) }
    ensures { drive.new ≡ commit_drive drive.old k }
{
    let image = held_image(drive);
    let next = next_start::next_start(&image, held_answer(drive, k));
    let n = image.sizes.command_count();
    put_start(drive, k, &next[..n]);
    word::put_nat(drive, drive::waiting_place(k), 0);
}

// Issues the head's waiting answer: its first commands to the caller, the rest, moved on, to its start.
#[tactic(auto, using(drive::proofs::Accept::committable))]
pub fn commit(drive: &mut [u8], head: u32, commands: &mut [u8]) -> Result<(), Refusal>
    ensures number { number_of result ≡ commit_number drive.old head (length commands.old) }
    ensures commands { commands.new ≡ cond (eqb (number_of result) 0) (commit_answer drive.old head) commands.old }
    ensures drive { drive.new ≡ cond (eqb (number_of result) 0) (commit_drive drive.old head) drive.old }
{
    let k = head as usize;
    check_commit(drive, k, commands.len())?;
    issue(drive, k, commands);
    move_on(drive, k);
    Ok(())
}
