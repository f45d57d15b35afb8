// A record of the file: the call, and what it is given.
use vectors::signals::Signal;

pub type Record = [u8; 136];

// Which call a record has: one of the fine stage, or what it writes into the host's buffers or the state.
#[derive(Clone, Copy, PartialEq, Eq)]
pub enum Kind {
    New,
    PushRun,
    Gate,
    Rescan,
    Restart,
    Relocate,
    Reset,
    Peak,
    Far,
    FarEntry,
    Array,
    ArrayEntry,
    Counts,
    PushOne,
    Nothing,
}

impl From<u8> for Kind {
    fn from(number: u8) -> Kind {
        match number {
            1 => Kind::New,
            2 => Kind::PushRun,
            3 => Kind::Gate,
            4 => Kind::Rescan,
            5 => Kind::Restart,
            6 => Kind::Relocate,
            7 => Kind::Reset,
            8 => Kind::Peak,
            11 => Kind::Far,
            12 => Kind::FarEntry,
            13 => Kind::Array,
            14 => Kind::ArrayEntry,
            15 => Kind::Counts,
            16 => Kind::PushOne,
            _ => Kind::Nothing,
        }
    }
}

#[derive(Clone, Copy)]
pub struct Call {
    pub kind: Kind,
    pub count: u32,
    pub number: u64,
    pub place: u64,
    pub signal: Signal,
}

pub fn call_of(record: &Record) -> Call {
    Call {
        kind: Kind::from(record[0]),
        count: vectors::number32(record, 4),
        number: vectors::number(record, 8, 8),
        place: vectors::number(record, 16, 8),
        signal: vectors::signals::read(record, 24),
    }
}

// Whether flag k of a record is set.
pub fn flagged(record: &Record, k: u8) -> bool {
    record[2] & k == k
}
