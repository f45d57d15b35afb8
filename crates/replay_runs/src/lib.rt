// Events that say nothing, in one loop: far events, and near events whose samples fill no frame. The scan is judged once before them; the loop goes over its far side and its near side alone,
// and what else a session has stands still. Behind them comes one turn.
#![tactic(auto)]

pub mod start; // where the loop begins, and where it ends
pub mod far; // a far event
pub mod near; // a near event

ghost use Rattle.std.specs.Prelude.{◌≡◌, true, List, ℕ, ◌+◌, ◌-◌, ◌^◌, ◌≤◌, ◌<◌, length, Some};
ghost use Rattle.scan.specs.Bins.{full_slack, envelope_len, near_len};
ghost use Rattle.scan.specs.State.{due};
ghost use Rattle.scan_score.specs.Observing.{lent};
ghost use Rattle.replay_near.specs.Telling.{Holds};
ghost use Rattle.replay_stream.specs.Stream.{Few, need_of};
ghost use Rattle.replay_runs.specs.Silences.{Calm, Inside, Before, Follows, Plays, Advances, Starts, halted};

use recording::{Event, Header, Used};
use replay::Session;
use replay_stream::{Bytes, Ended, Place, Turned};
use scan::{Far, Near};

// The parts of a place that such events change, the bytes that they used, and whether the next event may follow.
#[derive(Clone, Copy)]
pub struct Silence {
    pub number: u32,
    pub index: u64,
    pub left: usize,
    pub far: Far,
    pub near: Near,
    pub used: Used,
    pub bytes: Bytes,
    pub going: bool,
}

pub fn halt(at: Silence) -> Silence
    ensures { result ≡ halted at }
{
    Silence { going: false, ..at }
}

// One event of the bytes at hand. The loop ends before one that is bad, of another kind, not admitted or short of bytes, and inside a near event that logs a line.
fn event(
    header: Header,
    session: Session,
    at: Silence,
    events: &[u8],
    far: &[u8],
    near: &[u8],
    samples: &mut [f32],
    envelope: &mut [f32],
    levels: &mut [f32],
) -> Silence
    requires { Calm session at × Inside events.now far.now near.now at.bytes × (length envelope.old ≡ envelope_len full_slack (due session.scan)) × (length levels.old ≡ near_len (due session.scan)) × Holds far.now samples.old × Holds near.now samples.old }
    ensures { Plays header session events.now far.now near.now at envelope.old levels.old result envelope.new levels.new }
{
    if at.number >= header.events {
        return halt(at);
    }
    match recording::event_at(events, at.bytes.events) {
        None => halt(at),
        Some(event) => play(
            header, session, at, event, far, near, samples, envelope, levels,
        ),
    }
}

fn play(
    header: Header,
    session: Session,
    at: Silence,
    event: Event,
    far: &[u8],
    near: &[u8],
    samples: &mut [f32],
    envelope: &mut [f32],
    levels: &mut [f32],
) -> Silence
    requires { Calm session at × (at.number < 2 ^ 32 - 1) × (at.bytes.events + 16 < 2 ^ 64) × (at.bytes.far ≤ length far.now) × (at.bytes.near ≤ length near.now) × Few (need_of (Some event)) × (length envelope.old ≡ envelope_len full_slack (due session.scan)) × (length levels.old ≡ near_len (due session.scan)) × Holds far.now samples.old × Holds near.now samples.old }
    ensures { (events : List ℕ) → Before header events far.now near.now at event → Plays header session events far.now near.now at envelope.old levels.old result envelope.new levels.new }
{
    match event {
        Event::Far { count } => far::event(header, session, at, count, far, samples, envelope),
        Event::Near { count, first } => near::event(
            header, session, at, count, first, near, samples, levels,
        ),
        Event::Rearm
        | Event::DiscardNear
        | Event::Unconfident
        | Event::Interior { .. }
        | Event::Edge { .. }
        | Event::Discontinuity => halt(at),
    }
}

// Events, until the loop ends.
fn follow(
    header: Header,
    session: Session,
    first: Silence,
    events: &[u8],
    far: &[u8],
    near: &[u8],
    samples: &mut [f32],
    envelope: &mut [f32],
    levels: &mut [f32],
) -> Silence
    requires { Calm session first × Inside events.now far.now near.now first.bytes × (length envelope.old ≡ envelope_len full_slack (due session.scan)) × (length levels.old ≡ near_len (due session.scan)) × Holds far.now samples.old × Holds near.now samples.old }
    ensures { Follows header session events.now far.now near.now first envelope.old levels.old result envelope.new levels.new }
{
    let mut at = first;
    while at.going {
        at = event(
            header, session, at, events, far, near, samples, envelope, levels,
        );
    }
    at
}

// The events that say nothing, and the turn behind them.
fn through(
    header: Header,
    place: Place,
    events: &[u8],
    far: &[u8],
    near: &[u8],
    ended: Ended,
    samples: &mut [f32],
    envelope: &mut [f32],
    levels: &mut [f32],
    window: &mut [f32],
    prefix: &mut [f64],
    squares: &mut [f64],
    scores: &mut [f64],
    lag_sums: &mut [f64],
) -> Turned
    requires { Starts place × (length envelope.old ≡ envelope_len full_slack (due place.session.scan)) × (length levels.old ≡ near_len (due place.session.scan)) × Holds far.now samples.old × Holds near.now samples.old }
    ensures { Advances header place (lent envelope.old levels.old window.old prefix.old squares.old scores.old lag_sums.old) events.now far.now near.now ended result (lent envelope.new levels.new window.new prefix.new squares.new scores.new lag_sums.new) }
{
    let session = place.session;
    let first = start::before(place);
    let last = follow(
        header, session, first, events, far, near, samples, envelope, levels,
    );
    let here = start::behind(session, last);
    let used = last.bytes;
    let t = replay_turn::turn(
        header,
        here,
        &events[used.events..],
        &far[used.far..],
        &near[used.near..],
        ended,
        samples,
        envelope,
        levels,
        window,
        prefix,
        squares,
        scores,
        lag_sums,
    );
    start::on_top(used, t)
}

// The events that say nothing, if there may be any, and the turn behind them.
pub fn advance(
    header: Header,
    place: Place,
    events: &[u8],
    far: &[u8],
    near: &[u8],
    ended: Ended,
    samples: &mut [f32],
    envelope: &mut [f32],
    levels: &mut [f32],
    window: &mut [f32],
    prefix: &mut [f64],
    squares: &mut [f64],
    scores: &mut [f64],
    lag_sums: &mut [f64],
) -> Turned
    requires { Holds far.now samples.old × Holds near.now samples.old }
    ensures { Advances header place (lent envelope.old levels.old window.old prefix.old squares.old scores.old lag_sums.old) events.now far.now near.now ended result (lent envelope.new levels.new window.new prefix.new squares.new scores.new lag_sums.new) }
{
    if start::may_go(place, samples.len(), envelope.len(), levels.len()) {
        return through(
            header, place, events, far, near, ended, samples, envelope, levels, window, prefix,
            squares, scores, lag_sums,
        );
    }
    replay_turn::turn(
        header, place, events, far, near, ended, samples, envelope, levels, window, prefix,
        squares, scores, lag_sums,
    )
}
