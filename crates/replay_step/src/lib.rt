// One turn of a host: `next` is asked over the bytes at hand, and its answer is heeded. Proved: `next` is handed these bytes and nothing else, a line goes where lines go once
// and whole, and what `next` left is handed on.
#![tactic(auto)]

ghost use Rattle.std.specs.Prelude.{◌≡◌, false, ◌≤◌, length};
ghost use Rattle.scan_score.specs.Observing.{lent};
ghost use Rattle.replay_stream.specs.Hosts.{opens};
ghost use Rattle.replay_inputs.specs.Inputs.{AllWithin};
ghost use Rattle.replay_sink.specs.Sink.{Fits};
ghost use Rattle.replay_step.specs.Step.{is_over, Heeded, Turn};

use pipes::told;
use pipes::told::Watch;
use recording::Header;
use replay::Session;
use replay_inputs::{Files, Inputs};
use replay_sink::Sink;
use replay_stream::{Answer, Input, Place, Stage, Turned};
use std::fs::File;
use std::io::Stderr;

// Where the replay stands. `over`: nothing more comes. `watched`: whether a person watches standard error, where progress stands.
#[derive(Clone, Copy)]
pub struct Stream {
    pub place: Place,
    pub inputs: Inputs,
    pub sink: Sink,
    pub over: bool,
    pub watched: Watch,
}

// Before the first line.
pub fn opening(session: Session, inputs: Inputs, sink: Sink, watched: Watch) -> Stream
    ensures { (result.inputs ≡ inputs) × (result.sink ≡ sink) × (result.place ≡ opens session) × (result.over ≡ false) }
{
    Stream {
        place: Place {
            number: 0,
            stage: Stage::Opening,
            session,
        },
        inputs,
        sink,
        over: false,
        watched,
    }
}

fn is_over(answer: Answer) -> bool
    ensures { result ≡ is_over answer }
{
    matches!(answer, Answer::Over)
}

// A read of the events tells a person how far the replay is: one is made for every 4,096 events.
fn tell(watched: Watch, answer: Answer, done: u32, all: u32) {
    if !watched.on {
        return;
    }
    if let Answer::Wants(Input::Entries) = answer {
        told::progress(watched.err, b"replay", done as u64, all as u64, b"events");
    }
}

// What was answered is done: a line goes where lines go, an input is read on, or the log is over.
fn heed(
    all: u32,
    stream: Stream,
    turned: Turned,
    files: &Files<'_>,
    log: Option<&File>,
    events: &mut [u8],
    far: &mut [u8],
    near: &mut [u8],
    room: &mut [u8],
) -> Stream
    requires { (AllWithin stream.inputs) × (length events.old ≡ 65536) × (length far.old ≡ 65536) × (length near.old ≡ 65536) × (Fits stream.sink room.old) }
    ensures { (Heeded turned stream events.old far.old near.old room.old result events.new far.new near.new room.new) × (Fits result.sink room.new) }
{
    let place = turned.place;
    let answer = turned.answer;
    let before = stream.inputs;
    tell(stream.watched, answer, place.number, all);
    let inputs = replay_inputs::go_on(before, turned.used, answer, files, events, far, near);
    let sink = replay_sink::take(stream.sink, answer, log, room);
    Stream {
        place,
        inputs,
        sink,
        over: is_over(answer),
        ..stream
    }
}

// One call for the next line, and what it asks for.
pub fn turn(
    header: Header,
    stream: Stream,
    files: &Files<'_>,
    log: Option<&File>,
    events: &mut [u8],
    far: &mut [u8],
    near: &mut [u8],
    envelope: &mut [f32],
    levels: &mut [f32],
    window: &mut [f32],
    prefix: &mut [f64],
    squares: &mut [f64],
    scores: &mut [f64],
    lag_sums: &mut [f64],
    room: &mut [u8],
) -> Stream
    requires { (AllWithin stream.inputs) × (length events.old ≡ 65536) × (length far.old ≡ 65536) × (length near.old ≡ 65536) × (Fits stream.sink room.old) }
    ensures { (Turn header stream (lent envelope.old levels.old window.old prefix.old squares.old scores.old lag_sums.old) events.old far.old near.old room.old result (lent envelope.new levels.new window.new prefix.new squares.new scores.new lag_sums.new) events.new far.new near.new room.new) × (Fits result.sink room.new) }
{
    let turned = replay_ask::ask(
        header,
        stream.place,
        stream.inputs,
        events,
        far,
        near,
        envelope,
        levels,
        window,
        prefix,
        squares,
        scores,
        lag_sums,
    );
    heed(
        header.events,
        stream,
        turned,
        files,
        log,
        events,
        far,
        near,
        room,
    )
}
