// The next start: an answer's commands moved one step forward, each held to the limits of its new step.
#![tactic(auto)]

ghost use Rattle.std.specs.Prelude.{◌≡◌, ◌*◌, ◌<◌, ◌≤◌, length};
ghost use Rattle.image.specs.Sizes.{Sound, command_count};
ghost use Rattle.drive.specs.Move.{moved_from};
ghost use Rattle.drive.specs.Parts.{MovedWord, Moved};

use image::{Image, Sizes};

// The command that becomes command k.
fn moved_from(z: Sizes, k: usize) -> usize
    requires { Sound z × (k < command_count z) }
    ensures { (result ≡ moved_from z k) × (result < command_count z) }
{
    let next = k + z.nu;
    if next < z.command_count() { next } else { k }
}

// Command k of the next start.
fn moved_at(image: &Image, answer: &[u8], k: usize) -> i64
    requires { (4 * command_count image.now.sizes ≤ length answer.now) × (k < command_count image.now.sizes) }
    ensures { MovedWord image.now.sizes image.now.bytes.now answer.now k result }
{
    let from = moved_from(image.sizes, k);
    let low = image.lower_at(k);
    let high = image.upper_at(k);
    integer::clamp(low, high, word::word_at(answer, 4 * from))
}

// The next start.
pub fn next_start(image: &Image, answer: &[u8]) -> [i64; 16]
    requires { 4 * command_count image.now.sizes ≤ length answer.now }
    ensures { Moved image.now.sizes image.now.bytes.now answer.now result }
{
    let mut next = [0; 16];
    for k in 0..image.sizes.command_count() {
        next[k] = moved_at(image, answer, k);
    }
    next
}
