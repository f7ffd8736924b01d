// Why a call is rejected and why a scanline is refused, with the format's number of each reason.
//
// A call that can be rejected answers a `Result` with a `Rejection`, and what reads a scanline one with a `Fault`. The numbers are
// those that a program in C sees, and the marks those that are stored beside the rows.
#![tactic(auto)]

ghost use Rattle.std.specs.Prelude.{◌≡◌};
ghost use Rattle.refusals.specs.Faults.{mark_of, status_of};
ghost use Rattle.refusals.specs.Rejections.{number_of, rejected_by};

/// Why a call is rejected.
#[derive(Clone, Copy, Debug, PartialEq, Eq)]
pub enum Rejection {
    TooLong = 10,
    TooShort = 11,
    Mark = 12,
    HeaderLength = 13,
    HeaderPastEnd = 14,
    Version = 15,
    DataType = 16,
    Orientation = 17,
    ScanlineHeaders = 18,
    PixelsPerLine = 19,
    Lines = 20,
    ColorTable = 21,
    SharedSlot = 22,
    PixelRoom = 23,
    MarkRoom = 24,
    NoColor = 25,
    PixelTooHigh = 26,
    BodyTooLong = 27,
    OutputRoom = 28,
    AnswerRoom = 29,
    Unmoved = 30,
    UprightRoom = 31,
    RefusedLine = 41,
    PartwayLine = 42,
}

/// The number of a rejection.
impl From<Rejection> for u32 {
    ghost from_gives = { λ rejection number. number ≡ number_of rejection };

    fn from(rejection: Rejection) -> u32 {
        rejection as u32
    }
}

// The number of a call that is not rejected, and the mark of a scanline without a fault.
const ACCEPTED: u32 = 0;

const GOOD: u8 = 0;

// The number of a call's rejection, 0 where it is not rejected.
pub fn number(answer: Result<(), Rejection>) -> u32
    ensures { result ≡ rejected_by answer }
{
    match answer {
        Ok(()) => ACCEPTED,
        Err(rejection) => u32::from(rejection),
    }
}

/// Why a scanline is refused.
#[derive(Clone, Copy, Debug, PartialEq, Eq)]
pub enum Fault {
    PastEnd = 1,
    Identifier = 2,
    WordsToFollow = 3,
    LineNumber = 4,
    PixelOffset = 5,
    WordCount = 6,
    TotalAbove = 7,
    TotalBelow = 8,
    Unreached = 9,
    SpareBit = 10,
    DataType = 16,
}

/// The mark of a fault.
impl From<Fault> for u8 {
    ghost from_gives = { λ fault mark. mark ≡ mark_of fault };

    fn from(fault: Fault) -> u8 {
        fault as u8
    }
}

// The status of a scanline, as it is marked: 0 where it is good.
pub fn mark(read: Result<(), Fault>) -> u8
    ensures { result ≡ status_of read }
{
    match read {
        Ok(()) => GOOD,
        Err(fault) => u8::from(fault),
    }
}
