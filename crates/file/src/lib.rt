// Reading a file, as the programs do.
#![tactic(auto)]

ghost use Rattle.std.specs.Prelude.{◌≡◌, length, take};
ghost use Rattle.std.specs.Counts.{IsPrefixLen};
ghost use Rattle.std.specs.Io.KnownBytes.{Consumes};
ghost use Rattle.sheet.specs.Laws.{drive_room};
ghost use Rattle.word_file.specs.WordFile.{state_room, target_room};

use std::io::Read;
use std::rt::Files;
use std::{fs, str};

// Room for drive.hex, state.hex and target.hex: `Enough` of label_text and of page_text says why no more has to be read.
// Functions, and no literals in the programs: only a contract ties a length to its definition.
const DRIVE_ROOM: usize = 12927;

const STATE_ROOM: usize = 98;

const TARGET_ROOM: usize = 34;

pub fn drive_room() -> [u8; DRIVE_ROOM]
    ensures { drive_room ≡ length result }
{
    [0; DRIVE_ROOM]
}

pub fn state_room() -> [u8; STATE_ROOM]
    ensures { state_room ≡ length result }
{
    [0; STATE_ROOM]
}

pub fn target_room() -> [u8; TARGET_ROOM]
    ensures { target_room ≡ length result }
{
    [0; TARGET_ROOM]
}

// Reads until the buffer is full, the input ends or a read fails, and answers how many bytes it put in front of the buffer.
fn read_full<F: Read>(input: &mut F, buffer: &mut [u8]) -> usize
    ensures in_bounds { IsPrefixLen result buffer.new }
    ensures bytes { Consumes (F.remaining input.old) (F.remaining input.new) (take result buffer.new) }
{
    let mut done = 0;
    // A read may give less than was asked for, so the number of turns isn't known.
    while done < buffer.len() {
        match input.read(&mut buffer[done..]) {
            Ok(0) | Err(_) => break,
            Ok(n) => done += n,
        }
    }
    done
}

// Reads a file until the buffer is full or the file ends. A file that can't be opened counts as empty. So does one whose name is
// not UTF-8: std opens no such file.
pub fn read_file(files: &impl Files, path: &[u8], buffer: &mut [u8]) -> usize
    ensures { IsPrefixLen result buffer.new }
{
    let Ok(path) = str::from_utf8(path) else {
        return 0;
    };
    match fs::open(files, path) {
        Ok(mut file) => read_full(&mut file, buffer),
        Err(_) => 0,
    }
}
