// Whether the fine stage and its buffers stand as a record says.
use crate::host::Host;
use crate::peak::Searched;
use crate::records;
use crate::records::Record;
use fine::{Fine, Frames, Lengths, Positions, Scans};
use floats::bits;
use vectors::buffers::hash_first;
use vectors::{number, number32};

fn same_lengths(lengths: Lengths, record: &Record) -> bool {
    lengths.frame == number(record, 120, 4) && lengths.transform == number(record, 124, 4)
}

fn same_frames(frames: Frames, record: &Record) -> bool {
    frames.len == number(record, 44, 4)
        && frames.taken == number32(record, 56)
        && frames.skipped == number32(record, 60)
        && frames.retained == records::flagged(record, 1)
}

fn same_positions(at: Positions, first: u64, last: u64) -> bool {
    at.first == first && at.last == last
}

// A record has 0 where no scan is recorded.
fn same_scans(scans: Scans, record: &Record) -> bool {
    let peak_at = scans.peak_at.unwrap_or(Positions { first: 0, last: 0 });
    bits::pattern64(scans.ratio) == number(record, 64, 8)
        && scans.origin.0 == number(record, 72, 8)
        && scans.count == number(record, 88, 8)
        && scans.peak_at.is_some() == records::flagged(record, 2)
        && same_positions(peak_at, number(record, 80, 4), number(record, 128, 4))
}

fn same_state(fine: Fine, record: &Record) -> bool {
    fine.origin.0 == number(record, 48, 8)
        && same_lengths(fine.lengths, record)
        && same_frames(fine.frames, record)
        && same_scans(fine.scans, record)
}

// A record has 0 where there is no lock.
fn same_lock(done: Searched, record: &Record) -> bool {
    let (delay, ratio) = match done.lock {
        Some(lock) => (lock.delay.0, bits::pattern64(lock.ratio)),
        None => (0, 0),
    };
    done.lock.is_some() == records::flagged(record, 4)
        && delay == number(record, 96, 8)
        && ratio == number(record, 104, 8)
}

fn same_answer(done: Searched, record: &Record) -> bool {
    done.answer == u64::from(record[1])
        && same_lock(done, record)
        && same_positions(done.peak_at, number(record, 84, 4), number(record, 132, 4))
}

// The hash of no entry stands for a frame that is not retained.
fn retained_len(fine: Fine) -> u64 {
    if fine.frames.retained {
        fine.lengths.frame
    } else {
        0
    }
}

fn same_buffers(fine: Fine, host: &Host, record: &Record) -> bool {
    hash_first(&host.near, fine.frames.len) == number(record, 112, 4)
        && hash_first(&host.retained, retained_len(fine)) == number(record, 116, 4)
}

pub fn same(done: Searched, host: &Host, record: &Record) -> bool {
    same_answer(done, record)
        && same_state(done.fine, record)
        && same_buffers(done.fine, host, record)
}
