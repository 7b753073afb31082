// Period and done: the sweeps of a drive's heads, given and given back.
#![tactic(auto)]

ghost use Rattle.std.specs.Prelude.{◌≡◌, cond, ◌<◌, ◌≤◌, eqb, length};
ghost use Rattle.refusal.specs.Number.{number_of};
ghost use Rattle.device.specs.Device.{most_heads};
ghost use Rattle.drive.specs.Layout.{drive_length};
ghost use Rattle.drive.specs.Calls.{place_number, period_number, put_owns, period_drive, done_drive};
ghost use Rattle.drive.specs.Parts.{Counted};

use drive::COMMON_PLACE;
use drive_parts::{check_count, check_length, check_place, held_common, held_count, held_own};
use refusal::Refusal;

// Check 15 of the drive's length, 3 for a number of heads that no made drive has.
#[tactic(auto, using(image::proofs::Ordering::buffer_length, image::proofs::Ordering::handed_on, image::proofs::Ordering::went_on), unfolding(drive::specs::Calls::period_number))]
fn check_period(drive: &[u8]) -> Result<(), Refusal>
    ensures { number_of result ≡ period_number drive.now }
{
    check_length(drive.len())?;
    check_count(held_count(drive))
}

// The shares of the first heads are written.
fn put_owns(drive: &mut [u8], own: u64, heads: usize)
    requires { (heads ≤ most_heads) × (length drive.old ≡ drive_length) }
    ensures { drive.new ≡ put_owns drive.old own heads }
{
    for k in 0..heads {
        word::put_nat(drive, drive::own_place(k), own);
    }
}

// The remainder is common, and each head made has its share.
#[tactic(auto, unfolding(drive::specs::Calls::period_drive))]
fn share(drive: &mut [u8], total: u64)
    requires { Counted drive.old }
    ensures { drive.new ≡ period_drive drive.old total }
{
    let heads = held_count(drive);
    word::put_nat(drive, COMMON_PLACE, total % heads);
    put_owns(drive, total / heads, heads as usize);
}

// Begins a period of that many sweeps; what was left of the one before lapses.
#[tactic(auto, using(drive::proofs::Accept::periodic))]
pub fn period(drive: &mut [u8], sweeps: u16) -> Result<(), Refusal>
    ensures number { number_of result ≡ period_number drive.old }
    ensures drive { drive.new ≡ cond (eqb (number_of result) 0) (period_drive drive.old sweeps) drive.old }
{
    check_period(drive)?;
    share(drive, u64::from(sweeps));
    Ok(())
}

// The share of head k becomes common.
#[tactic(auto, unfolding(drive::specs::Calls::done_drive))]
fn release(drive: &mut [u8], k: usize)
    requires { (k < most_heads) × (length drive.old ≡ drive_length) }
    ensures { drive.new ≡ done_drive drive.old k }
{
    let own = held_own(drive, k);
    let common = held_common(drive);
    drive_shares::put_shares(drive, k, 0, common + own);
}

// A head declares itself done: its unused share becomes common.
#[tactic(auto, using(drive::proofs::Accept::placed))]
pub fn done(drive: &mut [u8], head: u32) -> Result<(), Refusal>
    ensures number { number_of result ≡ place_number drive.old head }
    ensures drive { drive.new ≡ cond (eqb (number_of result) 0) (done_drive drive.old head) drive.old }
{
    let k = head as usize;
    check_place(drive, k)?;
    release(drive, k);
    Ok(())
}
