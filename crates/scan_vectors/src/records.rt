// A record of the file: the call, and what its answer is to be.
use scan::Scan;
use vectors::signals::Signal;

pub type Record = [u8; 168];

// Which call a record has: one of the scan, or what it makes up.
#[derive(Clone, Copy, PartialEq, Eq)]
pub enum Kind {
    New,
    PushFar,
    PushNear,
    Score,
    Rearm,
    DiscardNear,
    Reset,
    History,
    FullFrame,
    EnvelopeSlot,
    Level,
    AllSums,
    Sum,
    Counts,
    Nothing,
}

impl From<u8> for Kind {
    fn from(number: u8) -> Kind {
        match number {
            1 => Kind::New,
            2 => Kind::PushFar,
            3 => Kind::PushNear,
            4 => Kind::Score,
            5 => Kind::Rearm,
            6 => Kind::DiscardNear,
            0 | 7 => Kind::Reset,
            11 => Kind::History,
            12 => Kind::FullFrame,
            13 => Kind::EnvelopeSlot,
            14 => Kind::Level,
            15 => Kind::AllSums,
            16 => Kind::Sum,
            17 => Kind::Counts,
            _ => Kind::Nothing,
        }
    }
}

// What a call is given.
#[derive(Clone, Copy)]
pub struct Call {
    pub kind: Kind,
    pub count: u32,
    pub number: u64,
    pub place: u64,
    pub accepted: u64, // of a made-up history
    pub last: u64, // of a made-up near frame
    pub signal: Signal,
}

pub fn call_of(record: &Record) -> Call {
    Call {
        kind: kind_of(record),
        count: vectors::number32(record, 4),
        number: vectors::number(record, 8, 8),
        place: vectors::number(record, 16, 8),
        accepted: vectors::number(record, 64, 8),
        last: vectors::number(record, 160, 8),
        signal: vectors::signals::read(record, 24),
    }
}

pub fn kind_of(record: &Record) -> Kind {
    Kind::from(record[0])
}

// The scan after a call, and the answer as a record has it.
#[derive(Clone, Copy)]
pub struct Done {
    pub scan: Scan,
    pub answer: u64,
}

// No record has it: a refusal, or an answer whose values are not those of the state.
pub const OTHER: u64 = 0x1_0000_0000;
