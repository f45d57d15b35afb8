// One entry of the event input, from the bytes at hand. A near event is only entered here: its samples are played behind it (replay_near).
#![tactic(auto)]

pub mod supplies; // whether an event's samples are at hand

ghost use Rattle.std.specs.Prelude.{◌≡◌, List, ℕ, ◌+◌, ◌-◌, ◌*◌, ◌^◌, ◌≤◌, ◌<◌, Float, length, Some};
ghost use Rattle.scan.specs.Bins.{full_slack};
ghost use Rattle.scan.specs.State.{Buffers};
ghost use Rattle.scan.specs.Calls.{pushed_far};
ghost use Rattle.recording.specs.Samples.{bytes_of, samples_in, used_up};
ghost use Rattle.scan.specs.Steps.{with_envelope};
ghost use Rattle.scan_score.specs.Observing.{lent};
ghost use Rattle.log_lines.specs.declared.Line.TheVariants as line;
ghost use Rattle.recording.specs.declared.Event.TheVariants as event;
ghost use Rattle.tracker.specs.Tracker.{seamed};
ghost use Rattle.tracker.specs.Cycle.{cycled};
ghost use Rattle.replay.specs.Words.{change_lines, cycle_line, cycles_after};
ghost use Rattle.replay.specs.Events.{with_scan, with_used, with_tracker};
ghost use Rattle.replay_stream.specs.Stream.{Piece, bytes_used, short, told, midway, Few, need_of, entry_turn};
ghost use Rattle.replay_stream.specs.declared.Stage.TheVariants.{Events, Closed};
ghost use Rattle.replay_stream.specs.declared.Answer.TheVariants.{Says, Silent, Wants};
ghost use Rattle.replay_near.specs.Telling.{Room, Holds};
ghost use Rattle.replay_stream.specs.Giving.{piece, hand_of, turned, gives};
ghost use Rattle.replay_entry.specs.Supplies.{next_entry};

use answers::Change;
use log_lines::Line;
use recording::{Event, Form, Header, Used};
use replay::{Session, events, words};
use replay_stream::{Answer, Bytes, Ended, Input, Place, Stage, Turned};
use scan::{Changed, Scan};
use tracker::Outcome;
use units::Samples;

// The samples of an event are at hand, still to come, or missing: the event passes the header's total, or its input has ended before them.
#[derive(Clone, Copy)]
pub enum Supply {
    AtHand,
    Awaited,
    Lacking,
}

// ---- what a turn comes to

// No byte is used.
pub fn stands(number: u32, stage: Stage, session: Session, answer: Answer) -> Turned
    ensures { result ≡ turned number stage session answer (bytes_used 0 0 0) }
{
    Turned {
        place: Place {
            number,
            stage,
            session,
        },
        answer,
        used: Bytes {
            events: 0,
            far: 0,
            near: 0,
        },
    }
}

// More of an input is wanted, and nothing was done.
fn waits(number: u32, session: Session, input: Input) -> Turned
    ensures { result ≡ turned number Events session (Wants input) (bytes_used 0 0 0) }
{
    stands(number, Stage::Events, session, Answer::Wants(input))
}

// A bad event ends the log.
fn bad(number: u32, session: Session) -> Turned
    ensures { result ≡ turned number Closed session (Says (line.BadEvent number)) (bytes_used 0 0 0) }
{
    let answer = Answer::Says(Line::BadEvent(number));
    stands(number, Stage::Closed, session, answer)
}

// The log goes on behind the event.
fn goes_on(number: u32, stage: Stage, session: Session, answer: Answer, far: usize) -> Turned
    requires { number < 2 ^ 32 - 1 }
    ensures { result ≡ turned (number + 1) stage session answer (bytes_used 16 far 0) }
{
    Turned {
        place: Place {
            number: number + 1,
            stage,
            session,
        },
        answer,
        used: Bytes {
            events: 16,
            far,
            near: 0,
        },
    }
}

// ---- events without samples

fn change_answer(number: u32, answer: Change) -> Answer
    ensures { result ≡ told (change_lines number answer) }
{
    match answer {
        Change::Refused(refusal) => Answer::Says(Line::Refused(number, refusal)),
        Change::Done => Answer::Silent,
    }
}

// A far push, a rearm or a discard has changed the scan, or was refused.
fn changed(number: u32, session: Session, used: Used, change: Changed, far: usize) -> Turned
    requires { number < 2 ^ 32 - 1 }
    ensures { result ≡ turned (number + 1) Events (with_scan (with_used session used) change.scan) (told (change_lines number change.answer)) (bytes_used 16 far 0) }
{
    let answer = change_answer(number, change.answer);
    let next = events::next_with_scan(session, used, change.scan);
    goes_on(number, Stage::Events, next, answer, far)
}

fn cycle(number: u32, session: Session, alignment: Samples, outcome: Outcome) -> Turned
    requires { number < 2 ^ 32 - 1 }
    ensures { result ≡ turned (number + 1) Events (with_tracker (with_used session session.used) (cycled session.tracker alignment outcome).tracker (cycles_after session.cycles (cycled session.tracker alignment outcome).verdict)) (Says (cycle_line number session.cycles (cycled session.tracker alignment outcome).verdict)) (bytes_used 16 0 0) }
{
    let c = session.tracker.on_cycle(alignment, outcome);
    let line = words::cycle_line(number, session.cycles, c.verdict);
    let cycles = words::cycles_after(session.cycles, c.verdict);
    let next = events::next_with_tracker(session, session.used, c.tracker, cycles);
    goes_on(number, Stage::Events, next, Answer::Says(line), 0)
}

fn discontinuity(number: u32, session: Session) -> Turned
    requires { number < 2 ^ 32 - 1 }
    ensures { result ≡ turned (number + 1) Events (with_tracker (with_used session session.used) (seamed session.tracker).tracker session.cycles) (told (change_lines number (seamed session.tracker).answer)) (bytes_used 16 0 0) }
{
    let c = session.tracker.on_discontinuity();
    let answer = change_answer(number, c.answer);
    let next = events::next_with_tracker(session, session.used, c.tracker, session.cycles);
    goes_on(number, Stage::Events, next, answer, 0)
}

// ---- events with samples

// The samples of a far event are one push, so that one that is not finite refuses them all.
fn push_whole(scan: Scan, envelope: &mut [f32], samples: &[f32]) -> Changed
    ensures changed { result ≡ (pushed_far full_slack scan envelope.old samples.now).changed }
    ensures envelope { envelope.new ≡ (pushed_far full_slack scan envelope.old samples.now).envelope }
{
    scan_push::push_far(scan, envelope, samples)
}

fn push_far(
    form: Form,
    number: u32,
    session: Session,
    count: u32,
    far: &[u8],
    samples: &mut [f32],
    envelope: &mut [f32],
) -> Turned
    requires { (number < 2 ^ 32 - 1) × Room form count far.now samples.old × (session.used.far + count < 2 ^ 64) }
    ensures turns { result ≡ turned (number + 1) Events (with_scan (with_used session (used_up (session.used.far + count) session.used.near)) (pushed_far full_slack session.scan envelope.old (samples_in form far.now count)).changed.scan) (told (change_lines number (pushed_far full_slack session.scan envelope.old (samples_in form far.now count)).changed.answer)) (bytes_used 16 (bytes_of form count) 0) }
    ensures leaves { envelope.new ≡ (pushed_far full_slack session.scan envelope.old (samples_in form far.now count)).envelope }
{
    let n = count as usize;
    let size = recording::bytes_of(form, count) as usize;
    replay_near::decode_first(form, far, n, samples);
    let before = session.scan;
    let change = push_whole(before, envelope, &samples[0..n]);
    let used = Used {
        far: session.used.far + count as u64,
        near: session.used.near,
    };
    changed(number, session, used, change, size)
}

fn far_turn(
    header: Header,
    number: u32,
    session: Session,
    count: u32,
    far: &[u8],
    ended: bool,
    samples: &mut [f32],
    envelope: &mut [f32],
) -> Turned
    requires { (number < 2 ^ 32 - 1) × (count ≤ 4096) × Holds far.now samples.old }
    ensures { (b : Buffers) (events near : Piece) → gives result (with_envelope b envelope.new) ≡ entry_turn header number session (with_envelope b envelope.old) (record { events = events; far = piece far.now ended; near = near }) (Some (event.Far count)) }
{
    let form = header.form;
    let s = supplies::of(form, session.used.far, header.far, count, far, ended);
    match s {
        Supply::AtHand => push_far(form, number, session, count, far, samples, envelope),
        Supply::Awaited => waits(number, session, Input::FarSide),
        Supply::Lacking => bad(number, session),
    }
}

// The stage while so many samples of the event are left.
pub fn stage_at(event: u32, index: u64, left: usize) -> Stage
    requires { left ≤ 4096 }
    ensures { result ≡ midway event index left }
{
    if left == 0 {
        return Stage::Events;
    }
    Stage::Midway {
        event,
        index,
        left: left as u32,
    }
}

// The event is entered: all its samples are left, and counted as used.
fn enter_near(number: u32, session: Session, count: u32, first: u64) -> Turned
    requires { (number < 2 ^ 32 - 1) × (count ≤ 4096) × (session.used.near + count < 2 ^ 64) }
    ensures { result ≡ turned (number + 1) (midway number first count) (with_used session (used_up session.used.far (session.used.near + count))) Silent (bytes_used 16 0 0) }
{
    let used = Used {
        far: session.used.far,
        near: session.used.near + count as u64,
    };
    let next = events::next_with_scan(session, used, session.scan);
    let stage = stage_at(number, first, count as usize);
    goes_on(number, stage, next, Answer::Silent, 0)
}

fn near_turn(
    header: Header,
    number: u32,
    session: Session,
    count: u32,
    first: u64,
    near: &[u8],
    ended: bool,
) -> Turned
    requires { (number < 2 ^ 32 - 1) × (count ≤ 4096) }
    ensures { (b : Buffers) (events far : Piece) → gives result b ≡ entry_turn header number session b (record { events = events; far = far; near = piece near.now ended }) (Some (event.Near count first)) }
{
    let form = header.form;
    let s = supplies::of(form, session.used.near, header.near, count, near, ended);
    match s {
        Supply::AtHand => enter_near(number, session, count, first),
        Supply::Awaited => waits(number, session, Input::NearSide),
        Supply::Lacking => bad(number, session),
    }
}

// ---- any event

fn play(
    header: Header,
    number: u32,
    session: Session,
    event: Event,
    far: &[u8],
    near: &[u8],
    ended: Ended,
    samples: &mut [f32],
    envelope: &mut [f32],
    lag_sums: &mut [f64],
) -> Turned
    requires { (number < 2 ^ 32 - 1) × Few (need_of (Some event)) × Holds far.now samples.old }
    ensures { (events : List ℕ) (l w p q c : List Float) → gives result (lent envelope.new l w p q c lag_sums.new) ≡ entry_turn header number session (lent envelope.old l w p q c lag_sums.old) (hand_of events far.now near.now ended) (Some event) }
{
    let before = session.scan;
    let used = session.used;
    match event {
        Event::Far { count } => far_turn(
            header, number, session, count, far, ended.far, samples, envelope,
        ),
        Event::Near { count, first } => near_turn(
            header, number, session, count, first, near, ended.near,
        ),
        Event::Rearm => {
            let change = scan_calls::rearm(before, lag_sums);
            changed(number, session, used, change, 0)
        }
        Event::DiscardNear => {
            let change = scan_calls::discard_near(before, lag_sums);
            changed(number, session, used, change, 0)
        }
        Event::Unconfident => cycle(number, session, Samples(0), Outcome::Unconfident),
        Event::Interior { alignment, delay } => {
            let outcome = Outcome::Candidate {
                delay: Samples(delay),
                interior: true,
            };
            cycle(number, session, Samples(alignment as u64), outcome)
        }
        Event::Edge { alignment, delay } => {
            let outcome = Outcome::Candidate {
                delay: Samples(delay),
                interior: false,
            };
            cycle(number, session, Samples(alignment as u64), outcome)
        }
        Event::Discontinuity => discontinuity(number, session),
    }
}

// Fewer than 16 bytes are at hand, and more may come.
fn short_of_an_entry(events: &[u8], ended: bool) -> bool
    ensures { result ≡ short 16 (piece events.now ended) }
{
    !ended && events.len() < 16
}

// The next entry of the event input.
pub fn entry_turn(
    header: Header,
    number: u32,
    session: Session,
    events: &[u8],
    far: &[u8],
    near: &[u8],
    ended: Ended,
    samples: &mut [f32],
    envelope: &mut [f32],
    lag_sums: &mut [f64],
) -> Turned
    requires { (number < 2 ^ 32 - 1) × Holds far.now samples.old }
    ensures { (l w p q c : List Float) → gives result (lent envelope.new l w p q c lag_sums.new) ≡ next_entry header number session (lent envelope.old l w p q c lag_sums.old) (hand_of events.now far.now near.now ended) }
{
    if short_of_an_entry(events, ended.events) {
        return waits(number, session, Input::Entries);
    }
    let entry = recording::event_at(events, 0);
    match entry {
        None => bad(number, session),
        Some(event) => play(
            header, number, session, event, far, near, ended, samples, envelope, lag_sums,
        ),
    }
}
