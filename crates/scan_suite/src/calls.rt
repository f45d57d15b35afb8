// The calls of records.
use answers::Change;
use scan::{Changed, Found, Frame, Region, Scan, Scoring, Taking, Took, Verdict};
use scan_vectors::buffers::{Buffers, Lengths};
use scan_vectors::records::{Call, Done, Kind, OTHER, Record};
use scan_vectors::{buffers, made_up, records};
use vectors::buffers::{first, first_mut};

// ---- a making, a far push, rearm, discard_near and reset

fn change_number(answer: Change) -> u64 {
    match answer {
        Change::Refused(_) => OTHER,
        Change::Done => 0,
    }
}

fn push_filled(scan: Scan, envelope: &mut [f32], samples: &mut [f32], call: Call) -> Changed {
    call.signal.fill(&mut *samples, call.place);
    scan_push::push_far(scan, envelope, samples)
}

fn push_far(scan: Scan, envelope: &mut [f32], call: Call) -> Changed {
    let mut samples = [0.0; 49152];
    push_filled(
        scan,
        envelope,
        first_mut(&mut samples, call.count as u64),
        call,
    )
}

// The rate and the ceiling of a scan to be made.
fn rate_and_ceiling(call: Call) -> (u32, u32) {
    (call.count, (call.number % 0x1_0000_0000) as u32)
}

fn new_scan(envelope: &mut [f32], sums: &mut [f64], call: Call) -> Changed {
    let (rate, ceiling) = rate_and_ceiling(call);
    scan_calls::new(rate, ceiling, envelope, sums)
}

// A call that is lent the envelope and the lag sums at most.
fn change(scan: Scan, envelope: &mut [f32], sums: &mut [f64], call: Call) -> Changed {
    match call.kind {
        Kind::New => new_scan(envelope, sums, call),
        Kind::PushFar => push_far(scan, envelope, call),
        Kind::Rearm => scan_calls::rearm(scan, sums),
        Kind::DiscardNear => scan_calls::discard_near(scan, sums),
        _ => scan_calls::reset(scan, envelope, sums),
    }
}

// The lengths that the scan has, or that the one to be made will have.
fn lengths_for(scan: Scan, call: Call) -> Lengths {
    let (rate, ceiling) = if call.kind == Kind::New {
        rate_and_ceiling(call)
    } else {
        (scan.geometry.rate, scan.geometry.ceiling)
    };
    buffers::lengths_of(rate, ceiling)
}

fn change_lent(scan: Scan, lent: &mut Buffers, call: Call) -> Done {
    let lengths = lengths_for(scan, call);
    let changed = change(
        scan,
        first_mut(&mut lent.envelope, lengths.envelope),
        first_mut(&mut lent.sums, lengths.lags),
        call,
    );
    Done {
        scan: changed.scan,
        answer: change_number(changed.answer),
    }
}

fn make(scan: Scan, lent: &mut Buffers, call: Call) -> Done {
    lent.blank_scratch();
    change_lent(scan, lent, call)
}

// ---- near samples

fn taking_number(answer: Taking) -> u64 {
    match answer {
        Taking::Refused(_) => OTHER,
        Taking::Ignored | Taking::Dropped | Taking::Taken => 0,
        Taking::Full => 1,
    }
}

// A run of near samples; its answer is that of the last.
fn push_run(scan: Scan, levels: &mut [f32], call: Call) -> Took {
    let mut took = Took {
        scan,
        answer: Taking::Ignored,
    };
    for i in 0..call.count as u64 {
        let sample = call.signal.at(call.place.wrapping_add(i));
        took = scan_push::push_near(took.scan, &mut *levels, sample, call.number.wrapping_add(i));
    }
    took
}

fn push_near(scan: Scan, lent: &mut Buffers, call: Call) -> Done {
    let lengths = buffers::lengths_of(scan.geometry.rate, scan.geometry.ceiling);
    let took = push_run(scan, first_mut(&mut lent.levels, lengths.frame), call);
    Done {
        scan: took.scan,
        answer: taking_number(took.answer),
    }
}

// ---- a frame to be scored

fn same_place(a: Region, b: Region) -> bool {
    a.delay.0 == b.delay.0
        && floats::bits::pattern64(a.correlation) == floats::bits::pattern64(b.correlation)
}

fn same_region(region: Region, found: Found) -> bool {
    match found {
        Found::Nothing => false,
        Found::At(stored) => same_place(region, stored),
    }
}

fn number_if(is: bool, number: u64) -> u64 {
    if is { number } else { OTHER }
}

// A banked frame's peak is the state's last peak, a region the state's.
fn frame_number(frame: Frame, v: Verdict) -> u64 {
    let found = v.found;
    match frame {
        Frame::Uncovered => 1,
        Frame::Ahead => 2,
        Frame::Quiet => 3,
        Frame::Flat => 4,
        Frame::Banked(peak) => number_if(
            floats::bits::pattern32(peak) == floats::bits::pattern32(v.last),
            5,
        ),
        Frame::Weak => 6,
        Frame::Ceiling => 7,
        Frame::Crowded => 8,
        Frame::Region(region) => number_if(same_region(region, found), 9),
    }
}

// The products are those of the record.
fn scored_number(answer: Scoring, v: Verdict, due: u64) -> u64 {
    match answer {
        Scoring::Refused(_) => OTHER,
        Scoring::Frame(frame, products) => number_if(products == due, frame_number(frame, v)),
    }
}

fn score(scan: Scan, lent: &mut Buffers, products: u32) -> Done {
    let lengths = buffers::lengths_of(scan.geometry.rate, scan.geometry.ceiling);
    let scored = scan_score::observe(
        scan,
        first(&lent.envelope, lengths.envelope),
        first(&lent.levels, lengths.frame),
        first_mut(&mut lent.window, lengths.window),
        first_mut(&mut lent.prefix, lengths.sums),
        first_mut(&mut lent.squares, lengths.sums),
        first_mut(&mut lent.scores, lengths.lags),
        first_mut(&mut lent.sums, lengths.lags),
    );
    Done {
        scan: scored.scan,
        answer: scored_number(scored.answer, scored.scan.verdict, products as u64),
    }
}

// ---- the call of a record

fn make_up(scan: Scan, lent: &mut Buffers, call: Call) -> Done {
    made_up::write(lent, call);
    Done {
        scan: made_up::state(scan, call),
        answer: 0,
    }
}

pub fn called(scan: Scan, lent: &mut Buffers, record: &Record) -> Done {
    let call = records::call_of(record);
    match call.kind {
        Kind::New => make(scan, lent, call),
        Kind::PushNear => push_near(scan, lent, call),
        Kind::Score => score(scan, lent, call.count),
        Kind::PushFar | Kind::Rearm | Kind::DiscardNear | Kind::Reset => {
            change_lent(scan, lent, call)
        }
        _ => make_up(scan, lent, call),
    }
}
