// States that no call made: histories, frames, lag sums and counts that a record writes into the scan.
use crate::buffers::Buffers;
use crate::records::{Call, Kind};
use scan::{Far, Near, Scan, Verdict};
use scan_calls::parts;
use vectors::buffers;

// The samples accepted are read, not multiplied: the state rules hold them to the blocks.
fn history(scan: Scan, call: Call) -> Scan {
    let far = Far {
        next: call.number,
        sum: 0.0,
        count: 0,
        accepted: call.accepted,
    };
    parts::with_far(scan, far)
}

// The last index is read, not multiplied: the state rules hold it to the first bin.
fn full_frame(scan: Scan, call: Call) -> Scan {
    let near = Near {
        len: scan.geometry.frame,
        sum: 0.0,
        count: 0,
        first: call.number,
        last: call.last,
    };
    parts::with_near(scan, near)
}

fn counts(scan: Scan, call: Call) -> Scan {
    let verdict = Verdict {
        banked: call.count,
        frames: (call.number % 0x1_0000_0000) as u32,
        beyond: call.place == 1,
        ..scan.verdict
    };
    parts::with_near_verdict(scan, scan.near, verdict)
}

// What a record writes into a buffer. Past the part that the scan is lent nothing is looked at.
pub fn write(lent: &mut Buffers, call: Call) {
    match call.kind {
        Kind::History => call.signal.fill(&mut lent.envelope, call.place),
        Kind::FullFrame => call.signal.fill(&mut lent.levels, call.place),
        Kind::EnvelopeSlot => buffers::store(&mut lent.envelope, call.count, call.number),
        Kind::Level => buffers::store(&mut lent.levels, call.count, call.number),
        Kind::AllSums => lent.sums.fill(floats::bits::float64(call.number)),
        Kind::Sum => buffers::store(&mut lent.sums, call.count, call.number),
        _ => {}
    }
}

// What it writes into the state.
pub fn state(scan: Scan, call: Call) -> Scan {
    match call.kind {
        Kind::History => history(scan, call),
        Kind::FullFrame => full_frame(scan, call),
        Kind::Counts => counts(scan, call),
        _ => scan,
    }
}
