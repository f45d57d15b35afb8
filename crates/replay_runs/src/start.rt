// Where the loop begins, and where it ends.
ghost use Rattle.std.specs.Prelude.{◌≡◌, true, false, ◌+◌, ◌-◌, ◌^◌, ◌≤◌, ◌<◌};
ghost use Rattle.scan.specs.Bins.{full_slack, envelope_len, near_len};
ghost use Rattle.scan.specs.State.{due, full, first_refusals};
ghost use Rattle.replay_stream.specs.Stream.{bytes_used, midway};
ghost use Rattle.replay_runs.specs.Silences.{MayGo, before_all, place_at};

use crate::Silence;
use replay::Session;
use replay_stream::{Bytes, Place, Stage, Turned};
use scan::Scan;
use scan_calls::rules;

// Refusals 1 to 3 are not due, and no full frame waits.
fn judged(scan: Scan, envelope: usize, levels: usize) -> bool
    ensures { result ≡ true → (envelope ≡ envelope_len full_slack (due scan)) × (levels ≡ near_len (due scan)) × (first_refusals scan true ≡ 0) × (full scan.geometry scan.near ≡ false) }
{
    let due = rules::geometry_of(scan.geometry.rate, scan.geometry.ceiling);
    envelope as u64 == rules::envelope_len(scan_calls::SLACK, due)
        && levels as u64 == due.frame
        && rules::first_refusals(scan, due, true) == 0
        && scan.near.len != scan.geometry.frame
}

// Without room for samples, as in a recording of cycles alone, no event is tried.
pub fn may_go(place: Place, samples: usize, envelope: usize, levels: usize) -> bool
    ensures { result ≡ true → MayGo place envelope levels }
{
    samples != 0
        && matches!(place.stage, Stage::Events)
        && judged(place.session.scan, envelope, levels)
}

pub fn before(place: Place) -> Silence
    ensures { result ≡ before_all place }
{
    let session = place.session;
    Silence {
        number: place.number,
        index: 0,
        left: 0,
        far: session.scan.far,
        near: session.scan.near,
        used: session.used,
        bytes: Bytes {
            events: 0,
            far: 0,
            near: 0,
        },
        going: true,
    }
}

// The event that has samples left is the one before the next.
fn stage_of(number: u32, index: u64, left: usize) -> Stage
    requires { (left ≤ 4096) × (0 < left → 0 < number) }
    ensures { result ≡ midway (number - 1) index left }
{
    if left == 0 {
        return Stage::Events;
    }
    replay_entry::stage_at(number - 1, index, left)
}

pub fn behind(session: Session, at: Silence) -> Place
    requires { (at.left ≤ 4096) × (0 < at.left → 0 < at.number) }
    ensures { result ≡ place_at session at }
{
    Place {
        number: at.number,
        stage: stage_of(at.number, at.index, at.left),
        session: Session {
            scan: Scan {
                far: at.far,
                near: at.near,
                ..session.scan
            },
            used: at.used,
            ..session
        },
    }
}

pub fn on_top(used: Bytes, t: Turned) -> Turned
    requires { (used.events + t.used.events < 2 ^ 64) × (used.far + t.used.far < 2 ^ 64) × (used.near + t.used.near < 2 ^ 64) }
    ensures { result ≡ record { place = t.place; answer = t.answer; used = bytes_used (used.events + t.used.events) (used.far + t.used.far) (used.near + t.used.near) } }
{
    Turned {
        used: used.plus(t.used),
        ..t
    }
}
