// Prints the label of a drive, from drive.hex, state.hex and target.hex in the current folder. What is printed is the
// value of `label_text::label` on the bytes of the files; only reading and writing is left to do here.
#![tactic(auto)]

ghost use Rattle.std.specs.Counts.{IsPrefixLen};

use std::io;
use std::rt::Files;

// Reads target.hex when nr of the sheet is above 0. Else it need not be opened: `Target` of label_text says why.
fn read_target(files: &impl Files, drive: &[u8], buffer: &mut [u8]) -> usize
    ensures { IsPrefixLen result buffer.new }
{
    if label_text::target_count(drive) == 0 {
        return 0;
    }
    file::read_file(files, b"target.hex", buffer)
}

fn main(rt: HostRuntime) -> io::Result<()> {
    let mut drive = file::drive_room();
    let drive_size = file::read_file(&rt, b"drive.hex", &mut drive);
    let mut state = file::state_room();
    let state_size = file::read_file(&rt, b"state.hex", &mut state);
    let mut target = file::target_room();
    let target_size = read_target(&rt, &drive[..drive_size], &mut target);
    let text = label_text::label(
        &drive[..drive_size],
        &state[..state_size],
        &target[..target_size],
    );
    rt.write_all(text.as_bytes())
}
