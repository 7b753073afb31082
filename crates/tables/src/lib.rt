// The checks of an image's tables, 7, 17 and 8 to 12, in order, and those of an image.
#![tactic(auto)]

ghost use Rattle.std.specs.Prelude.{◌≡◌, IfOk};
ghost use Rattle.refusal.specs.Number.{number_of};
ghost use Rattle.image.specs.Layout.{sizes_of};
ghost use Rattle.interface.specs.Tables.{tables_number, image_number};

use image::Image;
use refusal::Refusal;

// Checks 7, 17 and 8 to 12, in order.
#[tactic(auto, using(interface::proofs::Extremes::margins_least, interface::proofs::Extremes::totals_largest), unfolding(interface::specs::Tables::tables_number))]
pub fn check_tables(image: &Image) -> Result<(), Refusal>
    ensures { number_of result ≡ tables_number image.now.sizes image.now.bytes.now }
{
    if !row_tests::limits_ordered(image) {
        return Err(Refusal::Limits);
    }
    if !row_tests::stoppable(image) {
        return Err(Refusal::Stop);
    }
    if !row_tests::symmetric(image) {
        return Err(Refusal::Symmetry);
    }
    let x = momentum::extremes_of(image);
    if x.margin < 1 {
        return Err(Refusal::Margin);
    }
    if dominance::power(image.sizes.b) < x.total {
        return Err(Refusal::Total);
    }
    if !momentum::is_momentum(image) || !momentum::momentum_passes(image, x) {
        return Err(Refusal::Momentum);
    }
    if !row_tests::ranges_pass(image) || !row_tests::sums_pass(image) {
        return Err(Refusal::Headroom);
    }
    Ok(())
}

// The checks of an image: the image that the bytes are.
#[tactic(auto, using(image::proofs::Ordering::handed_on, image::proofs::Ordering::went_on), unfolding(interface::specs::Tables::image_number))]
pub fn check_image(bytes: &[u8]) -> Result<Image<'_>, Refusal>
    ensures number { number_of result ≡ image_number bytes.now }
    ensures image { IfOk result (λ i. (i.bytes.now ≡ bytes.now) × (i.sizes ≡ sizes_of bytes.now)) }
{
    let image = integrity::check_head(bytes)?;
    integrity::check_body(&image)?;
    check_tables(&image)?;
    Ok(image)
}
