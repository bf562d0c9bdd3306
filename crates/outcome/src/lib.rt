// Why a call is refused; what a statement must leave: one outcome; and what a call's number says of it. The definitions are in specs/.
#![tactic(auto)]

ghost use Rattle.std.specs.Prelude.{◌≡◌};
ghost use Rattle.outcome.specs.Refused.{number_in, number_of};

// Why a call is refused, each with the number that document 01 gives it.
#[derive(Clone, Copy, Debug, PartialEq, Eq)]
pub enum Refusal {
    // a count of input inks outside 1 to 15
    InputInks = 1,
    // a count of output inks outside 1 to 15; of a cube method neither 3 nor 4
    OutputInks = 2,
    // a grid size in use is 0
    ZeroSize = 3,
    // the table would have more than 4,294,967,295 entries
    LargeTotal = 5,
    // a table shorter than its layout asks
    ShortTable = 6,
    // not as many inputs, or coordinates of a node, as inks
    InputCount = 7,
    // a buffer too short for what is to be written
    ShortAnswer = 8,
    // a record that no accepted layout gives
    ForeignRecord = 9,
    // a node past the last line
    OutsideGrid = 10,
    // the ink to cut is none of the inks, or the only one
    NoSuchInk = 11,
    // the line to cut at is past the last
    NoSuchLine = 12,
    // a CLUT element of under 20 bytes
    ShortElement = 13,
    // a precision that is neither one byte nor two
    Precision = 14,
    // fewer values than are asked for
    ShortData = 15,
    // an input is a NaN
    NanInput = 16,
    // a table file is not exactly its blocks
    FileLength = 17,
    // a block's check is not its words' sum
    BlockCheck = 18,
    // a block's number is not its place
    BlockNumber = 19,
    // a block's filling, or an unused size, is not 0
    BlockFilling = 20,
}

// The number of a refusal.
impl From<Refusal> for u32 {
    ghost from_gives = { λ refusal number. number ≡ number_of refusal };

    fn from(refusal: Refusal) -> u32 {
        refusal as u32
    }
}

// The number of an answer: 0 where it is one, else the refusal's.
pub fn number<T: Drop>(answer: Result<T, Refusal>) -> u32
    ensures { result ≡ number_in answer }
{
    match answer {
        Ok(_) => 0,
        Err(refusal) => u32::from(refusal),
    }
}
