// Prints the design page of a drive, from drive.hex in the current folder. What is printed is the text of
// `page_text::page` for the bytes of the file; only reading and writing is left to do here.
#![tactic(auto)]

use std::io;

fn main(rt: HostRuntime) -> io::Result<()> {
    let mut drive = file::drive_room();
    let size = file::read_file(&rt, b"drive.hex", &mut drive);
    let mut text = [0; page_text::PAGE_ROOM];
    let n = page_text::page(&drive[..size], &mut text);
    rt.write_all(&text[..n])
}
