// The sweeps of a drive's heads: whether those of one are enough for an ask, and what an ask takes.
#![tactic(auto)]

ghost use Rattle.std.specs.Prelude.{◌≡◌, ◌+◌, ◌<◌, leb, length};
ghost use Rattle.device.specs.Device.{most_heads};
ghost use Rattle.drive.specs.Layout.{drive_length, held_own, held_common, held_sweeps};
ghost use Rattle.drive.specs.Calls.{put_shares, charged};
ghost use Rattle.drive.specs.Parts.{Found};

use drive::COMMON_PLACE;
use drive_parts::{held_common, held_image, held_own};

// The common part and the share of head k are written.
#[tactic(auto, unfolding(drive::specs::Calls::put_shares))]
pub fn put_shares(drive: &mut [u8], k: usize, own: u64, common: u64)
    requires { (k < most_heads) × (length drive.old ≡ drive_length) }
    ensures { drive.new ≡ put_shares drive.old k own common }
{
    word::put_nat(drive, COMMON_PLACE, common);
    word::put_nat(drive, drive::own_place(k), own);
}

// Whether the share of head k and the common part together are enough for an ask.
pub fn affords(drive: &[u8], k: usize) -> bool
    requires { Found drive.now × (k < most_heads) }
    ensures { result ≡ leb (held_sweeps drive.now) (held_own drive.now k + held_common drive.now) }
{
    held_image(drive).sizes.sweeps as u64 <= held_own(drive, k) + held_common(drive)
}

// The sweeps of an ask are taken, from the share of head k first.
#[tactic(auto, unfolding(drive::specs::Calls::charged))]
pub fn charge(drive: &mut [u8], k: usize)
    requires { Found drive.old × (k < most_heads) }
    ensures { drive.new ≡ charged drive.old k }
{
    let cost = held_image(drive).sizes.sweeps as u64;
    let own = held_own(drive, k);
    let common = held_common(drive);
    let rest = cost.saturating_sub(own);
    put_shares(
        drive,
        k,
        own.saturating_sub(cost),
        common.saturating_sub(rest),
    );
}
