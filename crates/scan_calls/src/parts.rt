// The parts of a state: as new, and a state with one part anew.
ghost use Rattle.std.specs.Prelude.{◌≡◌};
ghost use Rattle.scan.specs.State.{new_far, new_near, new_verdict, new_scan, emptied};
ghost use Rattle.scan.specs.Calls.{with_far, with_near, with_near_verdict, unbanked, changed_by};
ghost use Rattle.answers.specs.declared.Change.TheVariants as Change;

use answers::Change;
use scan::{Changed, Far, Found, Geometry, Near, Scan, Verdict};

pub fn new_far() -> Far
    ensures { result ≡ new_far }
{
    Far {
        next: 0,
        sum: 0.0,
        count: 0,
        accepted: 0,
    }
}

pub fn new_near() -> Near
    ensures { result ≡ new_near }
{
    Near {
        len: 0,
        sum: 0.0,
        count: 0,
        first: 0,
        last: 0,
    }
}

// No frame is under way, nor a block of one: its first bin and the last index stay.
pub fn empty(n: Near) -> Near
    ensures { result ≡ emptied n }
{
    Near {
        len: 0,
        sum: 0.0,
        count: 0,
        ..n
    }
}

pub fn new_verdict() -> Verdict
    ensures { result ≡ new_verdict }
{
    Verdict {
        banked: 0,
        frames: 0,
        last: 0.0,
        found: Found::Nothing,
        beyond: false,
        exhausted: false,
    }
}

// A scan as it is made.
pub fn as_new(geometry: Geometry) -> Scan
    ensures { result ≡ record { geometry = geometry; far = new_far; near = new_near; verdict = new_verdict } }
{
    Scan {
        geometry,
        far: new_far(),
        near: new_near(),
        verdict: new_verdict(),
    }
}

pub fn new_scan(rate: u32, ceiling: u32) -> Scan
    ensures { result ≡ new_scan rate ceiling }
{
    as_new(crate::rules::geometry_of(rate, ceiling))
}

// No frame is banked any more.
pub fn unbank(v: Verdict) -> Verdict
    ensures { result ≡ unbanked v }
{
    Verdict { banked: 0, ..v }
}

pub fn with_far(scan: Scan, far: Far) -> Scan
    ensures { result ≡ with_far scan far }
{
    Scan { far, ..scan }
}

pub fn with_near(scan: Scan, near: Near) -> Scan
    ensures { result ≡ with_near scan near }
{
    Scan { near, ..scan }
}

pub fn with_near_verdict(scan: Scan, near: Near, verdict: Verdict) -> Scan
    ensures { result ≡ with_near_verdict scan near verdict }
{
    Scan {
        near,
        verdict,
        ..scan
    }
}

// The near frame and the verdict as new; the far side stays, its partial block too.
pub fn searching_anew(scan: Scan) -> Scan
    ensures { result ≡ with_near_verdict scan new_near new_verdict }
{
    Scan {
        near: new_near(),
        verdict: new_verdict(),
        ..scan
    }
}

// A refusal returns its number and the state it was given.
pub fn refused(scan: Scan, number: u8) -> Changed
    ensures { result ≡ changed_by (Change.Refused number) scan }
{
    Changed {
        scan,
        answer: Change::Refused(number),
    }
}

pub fn done(scan: Scan) -> Changed
    ensures { result ≡ changed_by Change.Done scan }
{
    Changed {
        scan,
        answer: Change::Done,
    }
}
