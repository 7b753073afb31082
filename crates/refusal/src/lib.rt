// Why a call is refused. C sees the number, of which 0 says that the call was answered.
#![tactic(auto)]

ghost use Rattle.std.specs.Prelude.{◌≡◌};
ghost use Rattle.refusal.specs.Number.{number, number_of};

// The checks, by what fails them, in the order of their numbers.
#[derive(Clone, Copy, Debug, PartialEq, Eq)]
pub enum Refusal {
    // a line that is not 22 digits and byte 10
    Malformed,
    // another line than the one due
    Misplaced,
    // a size outside its range, a head that there is not
    Size,
    // a line that is missing, or bytes behind the last
    Count,
    // a value that is no word
    Word,
    // an image's length
    Length,
    // a low limit above its high one
    Limits,
    // a cost matrix that is not symmetric
    Symmetry,
    // a row's margin below 1 count
    Margin,
    // a row's total above 2^b
    Total,
    // a step factor outside its range or its ratio
    Momentum,
    // a range beyond the largest word
    Headroom,
    // a state beyond its limits or of another length
    State,
    // a start likewise
    Start,
    // a buffer of another length
    Buffer,
    // a target beyond its limits or of another length
    Target,
    // limits that keep a command from zero
    Stop,
    // a commit while no answer waits
    Idle,
    // a new image while an answer waits
    Waiting,
    // an ask that costs more sweeps than are left
    Sweeps,
    // lent factors that do not enclose the cost matrix
    Factors,
}

impl From<Refusal> for u32 {
    ghost from_gives = { λ why r. r ≡ number why };

    fn from(why: Refusal) -> u32 {
        match why {
            Refusal::Malformed => 1,
            Refusal::Misplaced => 2,
            Refusal::Size => 3,
            Refusal::Count => 4,
            Refusal::Word => 5,
            Refusal::Length => 6,
            Refusal::Limits => 7,
            Refusal::Symmetry => 8,
            Refusal::Margin => 9,
            Refusal::Total => 10,
            Refusal::Momentum => 11,
            Refusal::Headroom => 12,
            Refusal::State => 13,
            Refusal::Start => 14,
            Refusal::Buffer => 15,
            Refusal::Target => 16,
            Refusal::Stop => 17,
            Refusal::Idle => 18,
            Refusal::Waiting => 19,
            Refusal::Sweeps => 20,
            Refusal::Factors => 21,
        }
    }
}

// The number of a call: 0 of one that was answered.
pub fn number(called: Result<(), Refusal>) -> u32
    ensures { result ≡ number_of called }
{
    match called {
        Ok(()) => 0,
        Err(why) => why.into(),
    }
}
