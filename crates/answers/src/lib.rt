// What every crate shares: refusal numbers, limits, the answers that say nothing of a state, and the allowed settings.
#![tactic(auto)]

ghost use Rattle.std.specs.Prelude.{◌≡◌};
ghost use Rattle.answers.specs.Answers.{changing, counted, flagged};
ghost use Rattle.answers.specs.Numbers;
ghost use Rattle.answers.specs.Numbers.{allowed_rate, allowed_ceiling, allowed_span};

// Rate, ceiling or fine span outside the table.
pub const OUTSIDE_TABLE: u8 = 1;

// A lent buffer is not of the length named.
pub const WRONG_LENGTH: u8 = 2;

// A state breaks one of its rules.
pub const BROKEN_STATE: u8 = 3;

// What would be read is NaN or infinite.
pub const NOT_FINITE: u8 = 4;

// Index, delay, alignment or origin too large, or a push would pass 2^62.
pub const TOO_LARGE: u8 = 5;

// A near sample is offered while a full frame waits.
pub const FRAME_WAITS: u8 = 6;

// A frame is to be scored and none is full.
pub const NO_FULL_FRAME: u8 = 7;

// A tracker's largest contradiction run is below its current one.
pub const INCONSISTENT_RECORD: u8 = 9;

// 2^62: index, delay, alignment and origin are below it, and at most this many samples are accepted.
pub const LIMIT: u64 = 0x4000_0000_0000_0000;

// Of a call that changes a state, and tells nothing but that it did.
#[derive(Clone, Copy)]
pub enum Change {
    Refused(u8),
    Done,
}

// Of a report that is a count.
#[derive(Clone, Copy)]
pub enum Count {
    Refused(u8),
    Is(u64),
}

// Of a report that is yes or no.
#[derive(Clone, Copy)]
pub enum Flag {
    Refused(u8),
    Is(bool),
}

// In these three a refusal of 0 is none.
impl Change {
    pub fn of(refusal: u8) -> Change
        ensures { result ≡ changing refusal }
    {
        if refusal != 0 {
            return Change::Refused(refusal);
        }
        Change::Done
    }
}

impl Count {
    pub fn of(refusal: u8, n: u64) -> Count
        ensures { result ≡ counted refusal n }
    {
        if refusal != 0 {
            return Count::Refused(refusal);
        }
        Count::Is(n)
    }
}

impl Flag {
    pub fn of(refusal: u8, is: bool) -> Flag
        ensures { result ≡ flagged refusal is }
    {
        if refusal != 0 {
            return Flag::Refused(refusal);
        }
        Flag::Is(is)
    }
}

// lo to hi, both counted.
pub fn within(lo: u32, hi: u32, n: u32) -> bool
    ensures { result ≡ Numbers.within lo hi n }
{
    if n < lo {
        return false;
    }
    n <= hi
}

// The allowed settings: SPECIFICATION 2.
pub fn allowed_rate(rate: u32) -> bool
    ensures { result ≡ allowed_rate rate }
{
    within(8000, 192000, rate)
}

pub fn allowed_ceiling(ceiling: u32) -> bool
    ensures { result ≡ allowed_ceiling ceiling }
{
    within(1, 4000, ceiling)
}

pub fn allowed_span(span: u32) -> bool
    ensures { result ≡ allowed_span span }
{
    within(1, 32768, span)
}
