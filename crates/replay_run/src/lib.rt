// From the header of a recording to the end of its log: the session is started, `replay_loop::all` takes turn after turn, and `replay_close` tells what that came to. It is proved to be
// safe and to end.
#![tactic(auto)]

ghost use Rattle.std.specs.Prelude.{◌≡◌, length};
ghost use Rattle.replay_inputs.specs.Inputs.{AllWithin};
ghost use Rattle.replay_sink.specs.Sink.{Fits};

use pipes::told::Watch;
use recording::Header;
use replay::{Begun, Session};
use replay_close::{Failure, Found};
use replay_inputs::{Files, Inputs};
use replay_sink::Sink;
use replay_step::Stream;
use std::fs::File;
use std::io::Stdout;

// The log from its first line on.
fn played(
    header: Header,
    session: Session,
    inputs: Inputs,
    sink: Sink,
    watched: Watch,
    files: &Files<'_>,
    log: Option<&File>,
    events: &mut [u8],
    far: &mut [u8],
    near: &mut [u8],
    envelope: &mut [f32],
    levels: &mut [f32],
    window: &mut [f32],
    prefix: &mut [f64],
    squares: &mut [f64],
    scores: &mut [f64],
    lag_sums: &mut [f64],
    room: &mut [u8],
) -> Stream
    requires { (AllWithin inputs) × (length events.old ≡ 65536) × (length far.old ≡ 65536) × (length near.old ≡ 65536) × (Fits sink room.old) }
    ensures { Fits result.sink room.new }
{
    let first = replay_step::opening(session, inputs, sink, watched);
    replay_loop::all(
        header, first, files, log, events, far, near, envelope, levels, window, prefix, squares,
        scores, lag_sums, room,
    )
}

fn ended(
    out: Stdout,
    header: Header,
    session: Session,
    inputs: Inputs,
    sink: Sink,
    watched: Watch,
    files: &Files<'_>,
    log: Option<&File>,
    events: &mut [u8],
    far: &mut [u8],
    near: &mut [u8],
    envelope: &mut [f32],
    levels: &mut [f32],
    window: &mut [f32],
    prefix: &mut [f64],
    squares: &mut [f64],
    scores: &mut [f64],
    lag_sums: &mut [f64],
    room: &mut [u8],
) -> Result<Found, Failure>
    requires { (AllWithin inputs) × (length events.old ≡ 65536) × (length far.old ≡ 65536) × (length near.old ≡ 65536) × (Fits sink room.old) }
{
    let last = played(
        header, session, inputs, sink, watched, files, log, events, far, near, envelope, levels,
        window, prefix, squares, scores, lag_sums, room,
    );
    replay_close::closed(
        out,
        last.sink,
        replay_inputs::failed(last.inputs),
        last.over,
        watched,
        log,
        room,
    )
}

// With buffers of the lengths that the header asks for.
pub fn started(
    out: Stdout,
    header: Header,
    inputs: Inputs,
    sink: Sink,
    watched: Watch,
    files: &Files<'_>,
    log: Option<&File>,
    events: &mut [u8],
    far: &mut [u8],
    near: &mut [u8],
    envelope: &mut [f32],
    levels: &mut [f32],
    window: &mut [f32],
    prefix: &mut [f64],
    squares: &mut [f64],
    scores: &mut [f64],
    lag_sums: &mut [f64],
    room: &mut [u8],
) -> Result<Found, Failure>
    requires { (AllWithin inputs) × (length events.old ≡ 65536) × (length far.old ≡ 65536) × (length near.old ≡ 65536) × (Fits sink room.old) }
{
    match replay::start(
        header, envelope, levels, window, prefix, squares, scores, lag_sums,
    ) {
        Begun::Refused(_) => Err(Failure::Broken),
        Begun::Ready(session) => ended(
            out, header, session, inputs, sink, watched, files, log, events, far, near, envelope,
            levels, window, prefix, squares, scores, lag_sums, room,
        ),
    }
}
