// The peak rule, which a frame that was taken as a later one goes on to.
use crate::calls;
use crate::calls::Done;
use crate::host::Host;
use crate::records::{Call, Kind};
use fine::{Fine, Positions};
use fine_peak::{Lock, PeakAnswer};
use std::fs::File;
use vectors::buffers;

// The state and the answer after the peak rule, where the peak stands (0, where the call did not come to it), and the lock that it gave, if it did.
#[derive(Clone, Copy)]
pub struct Searched {
    pub fine: Fine,
    pub answer: u64,
    pub peak_at: Positions,
    pub lock: Option<Lock>,
}

const NOWHERE: Positions = Positions { first: 0, last: 0 };

fn no_lock(fine: Fine, answer: u64, peak_at: Positions) -> Searched {
    Searched {
        fine,
        answer,
        peak_at,
        lock: None,
    }
}

fn search(fine: Fine, array: &[f32], answer: u64) -> Searched {
    let found = fine_peak::peak(fine, array);
    match found.answer {
        PeakAnswer::Refused(_) => no_lock(found.fine, calls::REFUSED, NOWHERE),
        PeakAnswer::NoCandidate(at) => no_lock(found.fine, answer, at),
        PeakAnswer::Candidate(lock) => Searched {
            fine: found.fine,
            answer,
            peak_at: lock.peak_at,
            lock: Some(lock),
        },
    }
}

// The next stored array becomes the host's.
fn read_part(arrays: Option<&File>, array: &mut [f32], span: u32) {
    buffers::read(arrays, buffers::first_mut(array, span as u64 + 1));
}

pub fn after(done: Done, arrays: Option<&File>, host: &mut Host, call: Call) -> Searched {
    if call.kind == Kind::Peak {
        return search(done.fine, &host.array, 0);
    }
    if done.answer != 4 {
        return no_lock(done.fine, done.answer, NOWHERE);
    }
    read_part(arrays, &mut host.array, done.fine.lengths.span);
    search(done.fine, &host.array, 4)
}
