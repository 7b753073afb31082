// The places of a drive's parts in its bytes, each derived from the one before, as specs/ has them. Beside them the crate is mathematics:
// the calls on a drive's bytes as definitions in specs/, and in proofs/ that they are the calls on the drive that the bytes hold.
#![tactic(auto)]

ghost use Rattle.std.specs.Prelude.{◌≡◌, ◌<◌};
ghost use Rattle.device.specs.Device.{most_heads};
ghost use Rattle.drive.specs.Layout.{waiting_place, start_place, answer_place, own_place};

pub const MOST_HEADS: usize = 4;

const WORD_ROOM: usize = 4;

pub const IMAGE_ROOM: usize = 2276;

const START_ROOM: usize = 4 * 16;

const ANSWER_ROOM: usize = 8 * 16 + 8;

const START_OFFSET: usize = WORD_ROOM;

const ANSWER_OFFSET: usize = START_OFFSET + START_ROOM;

const HEAD_ROOM: usize = ANSWER_OFFSET + ANSWER_ROOM;

pub const LENGTH_PLACE: usize = 0;

pub const IMAGE_PLACE: usize = LENGTH_PLACE + WORD_ROOM;

const HEADS_PLACE: usize = IMAGE_PLACE + IMAGE_ROOM;

pub const COUNT_PLACE: usize = HEADS_PLACE + HEAD_ROOM * MOST_HEADS;

pub const COMMON_PLACE: usize = COUNT_PLACE + WORD_ROOM;

const OWNS_PLACE: usize = COMMON_PLACE + WORD_ROOM;

pub const DRIVE_LENGTH: usize = OWNS_PLACE + WORD_ROOM * MOST_HEADS;

// Where it is said whether an answer of head k waits.
pub fn waiting_place(k: usize) -> usize
    requires { k < most_heads }
    ensures { result ≡ waiting_place k }
{
    HEADS_PLACE + HEAD_ROOM * k
}

// Where the start of head k stands.
pub fn start_place(k: usize) -> usize
    requires { k < most_heads }
    ensures { result ≡ start_place k }
{
    waiting_place(k) + START_OFFSET
}

// Where the answer of head k stands.
pub fn answer_place(k: usize) -> usize
    requires { k < most_heads }
    ensures { result ≡ answer_place k }
{
    waiting_place(k) + ANSWER_OFFSET
}

// Where it is said what head k has left of its own share.
pub fn own_place(k: usize) -> usize
    requires { k < most_heads }
    ensures { result ≡ own_place k }
{
    OWNS_PLACE + WORD_ROOM * k
}
