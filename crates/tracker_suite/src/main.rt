// Replays stored calls of the tracker against the answers of the unchanged Rust, and writes how many were tried and how many differ.
// tests/tracker/README.md says how the files were made and what a record holds.
#![tactic(auto)]

ghost use Rattle.std.specs.Prelude.{◌+◌, ◌≤◌};

use answers::{Change, Count, Flag};
use std::fs::File;
use std::io::Stdout;
use tracker::{Bands, Cycled, Outcome, Tracker, Trigger, Verdict};
use units::Samples;
use vectors::Tally;
use vectors::files::Records;

// A call with what it answers, and a rate with its bands.
type Record = [u8; 64];

type RateRecord = [u8; 24];

// The call of a record: a tracker is made, its state is set to the one of the record, a cycle, or a discontinuity.
#[derive(Clone, Copy)]
enum Call {
    Make(u32),
    Set(Tracker),
    Cycle(Samples, Outcome),
    Discontinuity,
}

fn delay(record: &Record, is: bool, at: usize) -> Option<Samples>
    requires { at + 8 ≤ 64 }
{
    is.then_some(Samples(vectors::number(record, at, 8)))
}

// Whether flag k of a record is set.
fn flagged(record: &Record, k: u8) -> bool {
    record[3] & k == k
}

// The tracker that a record holds.
fn stored(record: &Record) -> Tracker {
    let rate = vectors::number32(record, 4);
    Tracker {
        rate, // a making that is refused hands out the tracker of another rate
        pending: delay(record, flagged(record, 1), 32),
        prev: delay(record, flagged(record, 2), 40),
        edges: vectors::number32(record, 48),
        jumps: vectors::number32(record, 52),
        unconfident: vectors::number32(record, 56),
        suspect: flagged(record, 4),
        largest: vectors::number32(record, 60),
        ..Tracker::new(rate).tracker
    }
}

fn call_of(record: &Record) -> Call {
    let alignment = Samples(vectors::number(record, 8, 8));
    let delay = Samples(vectors::number(record, 16, 8));
    match record[0] {
        1 => Call::Make(vectors::number32(record, 4)),
        2 => Call::Set(stored(record)),
        5 => Call::Cycle(alignment, Outcome::Unconfident),
        8 => Call::Discontinuity,
        kind => Call::Cycle(
            alignment,
            Outcome::Candidate {
                delay,
                interior: kind == 6,
            },
        ),
    }
}

fn is_cycle(record: &Record) -> bool {
    (5..=7).contains(&record[0])
}

// No verdict is written as a refusal with 0.
fn no_verdict(a: Change) -> Verdict {
    match a {
        Change::Refused(n) => Verdict::Refused(n),
        Change::Done => Verdict::Refused(0),
    }
}

fn called(t: Tracker, call: Call) -> Cycled {
    match call {
        Call::Make(rate) => {
            let made = Tracker::new(rate);
            Cycled {
                tracker: made.tracker,
                verdict: no_verdict(made.answer),
            }
        }
        Call::Set(tracker) => Cycled {
            tracker,
            verdict: Verdict::Refused(0),
        },
        Call::Cycle(alignment, outcome) => t.on_cycle(alignment, outcome),
        Call::Discontinuity => {
            let seamed = t.on_discontinuity();
            Cycled {
                tracker: seamed.tracker,
                verdict: no_verdict(seamed.answer),
            }
        }
    }
}

// ---- whether it is as a record says

// A verdict as a record has it: 0 where there is none, 1 hold, 2 move, 3 reacquire; the trigger from 1; where a move goes.
fn same_verdict(v: Verdict, record: &Record) -> bool {
    let (verdict, trigger, to) = match v {
        Verdict::Refused(n) => (0, 0, n as u64),
        Verdict::Hold => (1, 0, 0),
        Verdict::Move(d) => (2, 0, d.0),
        Verdict::Reacquire(Trigger::Edge) => (3, 1, 0),
        Verdict::Reacquire(Trigger::Lost) => (3, 2, 0),
        Verdict::Reacquire(Trigger::Jump) => (3, 3, 0),
        Verdict::Reacquire(Trigger::Seam) => (3, 4, 0),
    };
    verdict == record[1] && trigger == record[2] && to == vectors::number(record, 24, 8)
}

fn same_flag(f: Flag, is: bool) -> bool {
    match f {
        Flag::Refused(_) => false,
        Flag::Is(b) => b == is,
    }
}

fn same_count(c: Count, n: u64) -> bool {
    match c {
        Count::Refused(_) => false,
        Count::Is(k) => k == n,
    }
}

fn same_runs(t: Tracker, record: &Record) -> bool {
    t.edges == vectors::number32(record, 48)
        && t.jumps == vectors::number32(record, 52)
        && t.unconfident == vectors::number32(record, 56)
}

fn same_delay(d: Option<Samples>, stored: Option<Samples>) -> bool {
    d.map(|s| s.0) == stored.map(|s| s.0)
}

fn same_tracker(t: Tracker, record: &Record) -> bool {
    same_delay(t.pending, delay(record, flagged(record, 1), 32))
        && same_delay(t.prev, delay(record, flagged(record, 2), 40))
        && same_runs(t, record)
        && same_count(t.longest_run(), vectors::number(record, 60, 4))
        && same_flag(t.suspect(), flagged(record, 4))
        && same_flag(t.quiescent(), flagged(record, 8))
}

// ---- all calls, and all rates

// A file of at most 65,536 calls.
fn try_calls(from: &File, out: Stdout) -> Tally {
    let mut tracker = Tracker::new(8000).tracker;
    let mut tally = Tally::new(out);
    for record in Records::of(Some(from), 65536) {
        let after = called(tracker, call_of(&record));
        tracker = after.tracker;
        let same = same_verdict(after.verdict, &record) && same_tracker(tracker, &record);
        tally = tally.saw(is_cycle(&record), same);
    }
    tally
}

fn bands_of(record: &RateRecord) -> Bands {
    Bands {
        late: vectors::number(record, 4, 4),
        early: vectors::number(record, 8, 4),
        agree: vectors::number(record, 12, 4),
        apart: vectors::number(record, 16, 4),
        lead: vectors::number(record, 20, 4),
    }
}

// A file of at most 2,730 rates.
fn try_rates(from: &File, out: Stdout) -> Tally {
    let mut tally = Tally::new(out);
    for record in Records::of(Some(from), 2730) {
        let made = Tracker::new(vectors::number32(&record, 0));
        tally = tally.saw(true, made.tracker.bands == bands_of(&record));
    }
    tally
}

fn main(rt: HostRuntime) {
    if let Some(bands) = vectors::files::open(rt, b"bands") {
        let tally = try_rates(&bands, rt.stdout());
        tally.report(b"bands of rates");
    }
    if let Some(cycles) = vectors::files::open(rt, b"cycles") {
        let tally = try_calls(&cycles, rt.stdout());
        tally.report_main(b"calls", b"cycles");
    }
}
