// The files of a label's state and target: their form, and why they are refused before a solve is.
#![tactic(auto)]

ghost use Rattle.std.specs.Prelude.{◌≡◌, ◌≤◌};
ghost use Rattle.refusal.specs.Number.{number_of};
ghost use Rattle.label_files.specs.Files.{target_form, form_number};

use image::{Image, Input};
use refusal::Refusal;

// Whether a target file holds nr words. With nr 0 it is not looked at.
#[tactic(auto, unfolding(crate::specs::Files::target_form))]
fn is_target(target: &[u8], nr: usize) -> bool
    requires { nr ≤ 4 }
    ensures { result ≡ target_form nr target.now }
{
    nr == 0 || word_file::is_word_file(target, nr)
}

// The tests of the files, before those of a solve. A solve tests the state's limits too, but they come before the target's
// form.
#[tactic(auto, using(word_file::proofs::WordFile::file_length), unfolding(crate::specs::Files::form_number))]
pub fn check_files(image: &Image, state: &[u8], target: &[u8]) -> Result<(), Refusal>
    ensures { number_of result ≡ form_number image.now.sizes image.now.bytes.now state.now target.now }
{
    let z = image.sizes;
    if !word_file::is_word_file(state, z.nx) {
        return Err(Refusal::State);
    }
    let x = word_file::file_words(state, z.nx);
    if !calls::input_passes(image, Input::State, &x[..4 * z.nx]) {
        return Err(Refusal::State);
    }
    if !is_target(target, z.nr) {
        return Err(Refusal::Target);
    }
    Ok(())
}
