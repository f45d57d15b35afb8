// A session with one part anew, and a run of near samples.
ghost use Rattle.std.specs.Prelude.{◌≡◌, ◌+◌, ◌-◌, ◌^◌, min};
ghost use Rattle.replay.specs.Events.{with_scan, with_frame, with_tracker, with_used};
ghost use Rattle.scan_runs.specs.Runs.{ran};

use crate::Session;
use recording::Used;
use scan::Scan;
use tracker::Tracker;

pub fn with_scan(session: Session, scan: Scan) -> Session
    ensures { result ≡ with_scan session scan }
{
    Session { scan, ..session }
}

// The scan after one frame more.
pub fn with_frame(session: Session, scan: Scan) -> Session
    ensures { result ≡ with_frame session scan }
{
    Session {
        scan,
        frames: session.frames.saturating_add(1),
        ..session
    }
}

// After an event: what it used of the samples is anew too.
pub fn next_with_scan(session: Session, used: Used, scan: Scan) -> Session
    ensures { result ≡ with_scan (with_used session used) scan }
{
    Session {
        scan,
        used,
        ..session
    }
}

pub fn next_with_tracker(session: Session, used: Used, tracker: Tracker, cycles: u64) -> Session
    ensures { result ≡ with_tracker (with_used session used) tracker cycles }
{
    Session {
        tracker,
        cycles,
        used,
        ..session
    }
}

// A run over the samples that pass: what it left, how many they are, and the index after them.
#[derive(Clone, Copy)]
pub struct Passed {
    pub session: Session,
    pub count: usize,
    pub index: u64,
}

pub fn later(index: u64, n: usize) -> u64
    ensures { result ≡ min (index + n) (2 ^ 64 - 1) }
{
    index.saturating_add(n as u64)
}

pub fn pass(session: Session, levels: &mut [f32], samples: &[f32], first: u64) -> Passed
    ensures session { result.session ≡ with_scan session (ran session.scan levels.old samples.now first).scan }
    ensures count { result.count ≡ (ran session.scan levels.old samples.now first).passed }
    ensures index { result.index ≡ min (first + (ran session.scan levels.old samples.now first).passed) (2 ^ 64 - 1) }
    ensures levels { levels.new ≡ (ran session.scan levels.old samples.now first).levels }
{
    let before = session.scan;
    let run = scan_runs::push_near_run(before, levels, samples, first);
    let after = run.scan;
    let count = run.passed;
    Passed {
        session: with_scan(session, after),
        count,
        index: later(first, count),
    }
}
