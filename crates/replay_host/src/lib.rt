// A recording in three open files, replayed: the lines of its log are written to a fourth, or held against a log there. This crate makes the room and opens the recording; `replay_run`
// goes on from there. It is proved to be safe and to end.
#![tactic(auto)]

ghost use Rattle.std.specs.Prelude.{◌≡◌, ◌≤◌, length};
ghost use Rattle.replay_inputs.specs.Inputs.{AllWithin};
ghost use Rattle.replay_sink.specs.Sink.{Fits, FitsAny};

use pipes::rooms;
use pipes::told::Watch;
use recording::Header;
use replay_close::{Failure, Found};
use replay_inputs::{Files, Inputs, Most};
use replay_sink::{Goal, Sink};
use replay_stream::Input;
use scan_calls::rules;
use std::fs::File;
use std::io::Stdout;

fn least(a: u64, b: usize) -> usize
    ensures { result ≤ b }
{
    a.min(b as u64) as usize
}

// The buffers are long enough for every rate and ceiling. Each is lent as far as the header asks.
fn sized(
    out: Stdout,
    header: Header,
    inputs: Inputs,
    sink: Sink,
    watched: Watch,
    files: &Files<'_>,
    log: Option<&File>,
    events: &mut [u8],
    far: &mut [u8],
    near: &mut [u8],
    envelope: &mut [f32],
    levels: &mut [f32],
    window: &mut [f32],
    prefix: &mut [f64],
    squares: &mut [f64],
    scores: &mut [f64],
    lag_sums: &mut [f64],
    room: &mut [u8],
) -> Result<Found, Failure>
    requires { (AllWithin inputs) × (length events.old ≡ 65536) × (length far.old ≡ 65536) × (length near.old ≡ 65536) × (Fits sink room.old) }
{
    let g = rules::geometry_of(header.rate, header.ceiling);
    let bins = g.frame + g.span;
    let e = least(rules::envelope_len(scan_calls::SLACK, g), envelope.len());
    let l = least(g.frame, levels.len());
    let w = least(bins, window.len());
    let p = least(bins + 1, prefix.len());
    let q = least(bins + 1, squares.len());
    let s = least(g.span + 1, scores.len());
    let t = least(g.span + 1, lag_sums.len());
    replay_run::started(
        out,
        header,
        inputs,
        sink,
        watched,
        files,
        log,
        events,
        far,
        near,
        &mut envelope[..e],
        &mut levels[..l],
        &mut window[..w],
        &mut prefix[..p],
        &mut squares[..q],
        &mut scores[..s],
        &mut lag_sums[..t],
        room,
    )
}

// Room for any recording. The rate with the most bins a second is 8,499: 1,062 of them, so that 271 bins make a frame and 4,248 the span of 4,000 ms.
fn envelope_space() -> [f32; 8519]
    ensures { 8519 ≡ length result }
{
    [0.0; 8519]
}

fn levels_space() -> [f32; 271]
    ensures { 271 ≡ length result }
{
    [0.0; 271]
}

fn window_space() -> [f32; 4519]
    ensures { 4519 ≡ length result }
{
    [0.0; 4519]
}

fn prefix_space() -> [f64; 4520]
    ensures { 4520 ≡ length result }
{
    [0.0; 4520]
}

fn lags_space() -> [f64; 4249]
    ensures { 4249 ≡ length result }
{
    [0.0; 4249]
}

// A recording with a good header: all the room that its replay needs is made here.
fn opened(
    out: Stdout,
    header: Header,
    inputs: Inputs,
    sink: Sink,
    watched: Watch,
    files: &Files<'_>,
    log: Option<&File>,
) -> Result<Found, Failure>
    requires { (AllWithin inputs) × (FitsAny sink) }
{
    let mut event_bytes = rooms::large();
    let mut far_bytes = rooms::large();
    let mut near_bytes = rooms::large();
    let mut envelope = envelope_space();
    let mut levels = levels_space();
    let mut window = window_space();
    let mut prefix = prefix_space();
    let mut squares = prefix_space();
    let mut scores = lags_space();
    let mut lag_sums = lags_space();
    let mut log_bytes = rooms::large();
    sized(
        out,
        header,
        inputs,
        sink,
        watched,
        files,
        log,
        &mut event_bytes,
        &mut far_bytes,
        &mut near_bytes,
        &mut envelope,
        &mut levels,
        &mut window,
        &mut prefix,
        &mut squares,
        &mut scores,
        &mut lag_sums,
        &mut log_bytes,
    )
}

fn run_in(
    out: Stdout,
    files: &Files<'_>,
    log: Option<&File>,
    most: Most,
    goal: Goal,
    watched: Watch,
    room: &mut [u8],
) -> Result<Found, Failure>
    requires { length room.old ≡ 65536 }
{
    let sink = replay_sink::fresh(goal, watched);
    let head = recording_head::read(files.events, most.events, room);
    if let Some(why) = head.failed {
        return Err(Failure::Unread(Input::Entries, why));
    }
    match recording_head::opened(head, room) {
        None => replay_close::unopened(out, sink, watched, log, room),
        Some(header) => opened(
            out,
            header,
            replay_inputs::announced(header, most),
            sink,
            watched,
            files,
            log,
        ),
    }
}

// Replays the recording in three open files, each of at most so many bytes from where it stands, beside the open file of a log that is checked. Of the events only the header is read before
// it is known. What a log is found to be is told on `out`.
pub fn run(
    out: Stdout,
    files: &Files<'_>,
    log: Option<&File>,
    most: Most,
    goal: Goal,
    watched: Watch,
) -> Result<Found, Failure> {
    let mut room = rooms::large();
    run_in(out, files, log, most, goal, watched, &mut room)
}
