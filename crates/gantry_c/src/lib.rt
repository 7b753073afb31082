// The calls of `gantry` for C, under their own names: libgantry.a, include/gantry.h. Each says again what the call promises, with the number in place of the refusal.
#![tactic(auto)]

ghost use Rattle.std.specs.Prelude.{◌≡◌, cond, eqb, length};
ghost use Rattle.interface.specs.Calls.{cold_number, cold_answer, solve_number, solve_answer};
ghost use Rattle.interface.specs.Demand.{Guarantee};
ghost use Rattle.range_interface.specs.Calls.{range_solve_number, range_answer};
ghost use Rattle.range_interface.specs.Claim.{RangeGuarantee};
ghost use Rattle.intake.specs.Intake.{intake_number, intake_image};
ghost use Rattle.design_page.specs.Page.{page_number, sheet_page};
ghost use Rattle.drive.specs.Layout.{held_image, held_start};
ghost use Rattle.drive.specs.Calls.{make_number, make_drive, new_number, imaged, place_number, ask_number, ask_answer, ask_drive, commit_number, commit_answer, commit_drive, period_number, period_drive, done_drive};

// Reads a design sheet and writes its image.
#[unsafe(no_mangle)]
pub extern "C" fn gantry_intake(sheet: &[u8], image: &mut [u8]) -> u32
    ensures number { result ≡ intake_number sheet.now (length image.old) }
    ensures bytes { image.new ≡ cond (eqb result 0) (intake_image sheet.now) image.old }
{
    refusal::number(gantry::gantry_intake(sheet, image))
}

// Reads a design sheet and writes its design page.
#[unsafe(no_mangle)]
pub extern "C" fn gantry_page(sheet: &[u8], page: &mut [u8]) -> u32
    ensures number { result ≡ page_number sheet.now (length page.old) }
    ensures bytes { page.new ≡ cond (eqb result 0) (sheet_page sheet.now) page.old }
{
    refusal::number(gantry::gantry_page(sheet, page))
}

// Writes a start of all zeros.
#[unsafe(no_mangle)]
pub extern "C" fn gantry_cold_start(image: &[u8], start: &mut [u8]) -> u32
    ensures number { result ≡ cold_number image.now (length start.old) }
    ensures bytes { start.new ≡ cond (eqb result 0) (cold_answer image.now) start.old }
{
    refusal::number(gantry::gantry_cold_start(image, start))
}

// Runs the image's sweeps from a start, and writes the commands, their bounds and D.
#[unsafe(no_mangle)]
pub extern "C" fn gantry_solve(
    image: &[u8],
    state: &[u8],
    target: &[u8],
    start: &[u8],
    answer: &mut [u8],
) -> u32
    ensures number { result ≡ solve_number image.now state.now target.now start.now (length answer.old) }
    ensures bytes { answer.new ≡ cond (eqb result 0) (solve_answer image.now state.now target.now start.now) answer.old }
    ensures guarantee { result ≡ 0 → Guarantee image.now state.now target.now start.now answer.new }
{
    refusal::number(gantry::gantry_solve(image, state, target, start, answer))
}

// The same for a state that is known within ranges: writes the lowest and the highest commands.
#[unsafe(no_mangle)]
pub extern "C" fn gantry_range_solve(
    image: &[u8],
    ranges: &[u8],
    target: &[u8],
    start: &[u8],
    answer: &mut [u8],
) -> u32
    ensures number { result ≡ range_solve_number image.now ranges.now target.now start.now (length answer.old) }
    ensures bytes { answer.new ≡ cond (eqb result 0) (range_answer image.now ranges.now target.now start.now) answer.old }
    ensures guarantee { result ≡ 0 → RangeGuarantee image.now ranges.now target.now start.now answer.new }
{
    refusal::number(gantry::gantry_range_solve(image, ranges, target, start, answer))
}

// Makes a drive of an image and 1 to 4 heads: each has a start of zeros and no sweeps, and no answer waits.
#[unsafe(no_mangle)]
pub extern "C" fn gantry_make(image: &[u8], heads: u32, drive: &mut [u8]) -> u32
    ensures number { result ≡ make_number image.now heads (length drive.old) }
    ensures drive { drive.new ≡ cond (eqb result 0) (make_drive image.now heads) drive.old }
{
    refusal::number(gantry::gantry_make(image, heads, drive))
}

// Begins a period of that many sweeps: each head owns an even share of them, the remainder is common, and what was left lapses.
#[unsafe(no_mangle)]
pub extern "C" fn gantry_period(drive: &mut [u8], sweeps: u16) -> u32
    ensures number { result ≡ period_number drive.old }
    ensures drive { drive.new ≡ cond (eqb result 0) (period_drive drive.old sweeps) drive.old }
{
    refusal::number(gantry::gantry_period(drive, sweeps))
}

// Replaces the image of a drive in which no answer waits, and sets every head's start to zero; the sweeps stay.
#[unsafe(no_mangle)]
pub extern "C" fn gantry_new_image(drive: &mut [u8], image: &[u8]) -> u32
    ensures number { result ≡ new_number drive.old image.now }
    ensures drive { drive.new ≡ cond (eqb result 0) (imaged drive.old image.now) drive.old }
{
    refusal::number(gantry::gantry_new_image(drive, image))
}

// Solves on a drive's image from a head's start, writes the answer, keeps it as the head's waiting one, and takes the image's sweeps.
#[unsafe(no_mangle)]
pub extern "C" fn gantry_ask(
    drive: &mut [u8],
    head: u32,
    state: &[u8],
    target: &[u8],
    answer: &mut [u8],
) -> u32
    ensures number { result ≡ ask_number drive.old head state.now target.now (length answer.old) }
    ensures answer { answer.new ≡ cond (eqb result 0) (ask_answer drive.old head state.now target.now) answer.old }
    ensures drive { drive.new ≡ cond (eqb result 0) (ask_drive drive.old head state.now target.now) drive.old }
    ensures guarantee { result ≡ 0 → Guarantee (held_image drive.old) state.now target.now (held_start drive.old head) answer.new }
{
    refusal::number(gantry::gantry_ask(drive, head, state, target, answer))
}

// Writes the first commands of a head's waiting answer, and moves the rest on as its next start.
#[unsafe(no_mangle)]
pub extern "C" fn gantry_commit(drive: &mut [u8], head: u32, commands: &mut [u8]) -> u32
    ensures number { result ≡ commit_number drive.old head (length commands.old) }
    ensures commands { commands.new ≡ cond (eqb result 0) (commit_answer drive.old head) commands.old }
    ensures drive { drive.new ≡ cond (eqb result 0) (commit_drive drive.old head) drive.old }
{
    refusal::number(gantry::gantry_commit(drive, head, commands))
}

// A head is done: what it has left of its own share becomes common.
#[unsafe(no_mangle)]
pub extern "C" fn gantry_done(drive: &mut [u8], head: u32) -> u32
    ensures number { result ≡ place_number drive.old head }
    ensures drive { drive.new ≡ cond (eqb result 0) (done_drive drive.old head) drive.old }
{
    refusal::number(gantry::gantry_done(drive, head))
}
