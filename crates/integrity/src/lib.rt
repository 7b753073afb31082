// Checks 6, 3, 6 and 5 of an image: its length, its sizes and its words.
#![tactic(auto)]

ghost use Rattle.std.specs.Prelude.{◌≡◌, IfOk};
ghost use Rattle.refusal.specs.Number.{number_of};
ghost use Rattle.gradient.specs.Index.{all_to};
ghost use Rattle.image.specs.Sizes.{Whole, input_count, body_count};
ghost use Rattle.image.specs.Layout.{sizes_of};
ghost use Rattle.image.specs.Checks.{head_number, word_test, limit_test, body_number};

use image::{Image, Input};
use refusal::Refusal;

// Checks 6, 3 and 6: the image that the bytes are.
#[tactic(auto, using(image::proofs::Sized::sound_facts), unfolding(image::specs::Checks::head_number))]
pub fn check_head(bytes: &[u8]) -> Result<Image<'_>, Refusal>
    ensures number { number_of result ≡ head_number bytes.now }
    ensures image { IfOk result (λ i. (i.bytes.now ≡ bytes.now) × (i.sizes ≡ sizes_of bytes.now)) }
{
    if bytes.len() < 32 {
        return Err(Refusal::Length);
    }
    let z = image::sizes_of(bytes);
    if !z.is_sound() || word::nat_at(bytes, 28) != 0 {
        return Err(Refusal::Size);
    }
    if bytes.len() != 4 * (8 + z.body_count()) {
        return Err(Refusal::Length);
    }
    Ok(Image::of(bytes))
}

// Whether each word after the first eight is a word of w bits.
fn words_pass(image: &Image) -> bool
    ensures { result ≡ all_to (word_test image.now.sizes image.now.bytes.now) (body_count image.now.sizes) }
{
    (0..image.sizes.body_count()).all(|i| word::is_word(
        word::word_at(image.bytes, 4 * (8 + i)),
        image.sizes.w,
    ))
}

// Whether no limit of an input is negative.
fn limits_pass(image: &Image, v: Input) -> bool
    ensures { result ≡ all_to (limit_test v image.now.sizes image.now.bytes.now) (input_count v image.now.sizes) }
{
    (0..image.sizes.input_count(v)).all(|j| 0 <= image.limit_at(v, j))
}

// Check 5.
#[tactic(auto, unfolding(image::specs::Checks::body_number))]
pub fn check_body(image: &Image) -> Result<(), Refusal>
    ensures { number_of result ≡ body_number image.now.sizes image.now.bytes.now }
{
    if words_pass(image) && limits_pass(image, Input::State) && limits_pass(image, Input::Target) {
        Ok(())
    } else {
        Err(Refusal::Word)
    }
}
