// Ask: a solve from the held start, for the caller and for the drive, and what it costs.
#![tactic(auto)]

ghost use Rattle.std.specs.Prelude.{◌≡◌, cond, ◌+◌, ◌<◌, ◌≤◌, eqb, length};
ghost use Rattle.refusal.specs.Number.{number_of};
ghost use Rattle.interface.specs.Demand.{Guarantee};
ghost use Rattle.device.specs.Device.{most_heads};
ghost use Rattle.drive.specs.Layout.{drive_length, answer_place, held_image, held_start};
ghost use Rattle.drive.specs.Calls.{ask_number, ask_answer, put_answer, ask_drive};

use drive_parts::{held_bytes, held_start};
use refusal::Refusal;

// The head and the drive's length, the solve's own checks, 20. The image's sizes come first, since they say where the start ends.
#[tactic(auto, using(drive::proofs::Accept::found, drive::proofs::Accept::ask_by_parts, image::proofs::Ordering::handed_on, image::proofs::Ordering::went_on))]
fn check_ask(
    drive: &[u8],
    k: usize,
    state: &[u8],
    target: &[u8],
    room: usize,
) -> Result<(), Refusal>
    ensures { number_of result ≡ ask_number drive.now k state.now target.now room }
{
    drive_parts::check_parts(drive, k)?;
    let start = held_start(drive, k);
    calls::check_solve(held_bytes(drive), state, target, start, room)?;
    if drive_shares::affords(drive, k) {
        Ok(())
    } else {
        Err(Refusal::Sweeps)
    }
}

// An answer is kept as the head's waiting one.
#[tactic(auto, using(word::proofs::Beside::put_lent), unfolding(drive::specs::Calls::put_answer))]
fn keep(drive: &mut [u8], k: usize, answer: &[u8])
    requires { (k < most_heads) × (length drive.old ≡ drive_length) × (answer_place k + length answer.now ≤ drive_length) }
    ensures { drive.new ≡ put_answer drive.old k answer.now }
{
    let place = drive::answer_place(k);
    let end = place + answer.len();
    drive_parts::copy(answer, &mut drive[place..end]);
    word::put_nat(drive, drive::waiting_place(k), 1);
}

// Solves from the head's start, for the caller and for the drive, and takes the image's sweeps.
#[tactic(auto, using(drive::proofs::Accept::askable), unfolding(drive::specs::Calls::ask_drive, drive::specs::Calls::ask_answer))]
pub fn ask(
    drive: &mut [u8],
    head: u32,
    state: &[u8],
    target: &[u8],
    answer: &mut [u8],
) -> Result<(), Refusal>
    ensures number { number_of result ≡ ask_number drive.old head state.now target.now (length answer.old) }
    ensures answer { answer.new ≡ cond (eqb (number_of result) 0) (ask_answer drive.old head state.now target.now) answer.old }
    ensures drive { drive.new ≡ cond (eqb (number_of result) 0) (ask_drive drive.old head state.now target.now) drive.old }
    ensures guarantee { number_of result ≡ 0 → Guarantee (held_image drive.old) state.now target.now (held_start drive.old head) answer.new }
{
    let k = head as usize;
    check_ask(drive, k, state, target, answer.len())?;
    let start = held_start(drive, k);
    solve::solve(held_bytes(drive), state, target, start, answer);
    drive_shares::charge(drive, k);
    keep(drive, k, answer);
    Ok(())
}
