// A host's loop: turn after turn, until the log is over, a log that is checked is found wrong, or a read or a write fails. Proved: it comes to the log of the bytes that were
// read, line by line; and the verdict on a log that is checked is the one on the bytes that were read.
#![tactic(auto)]

ghost use Rattle.std.specs.Prelude.{◌≡◌, true, false, length};
ghost use Rattle.scan_score.specs.Observing.{lent};
ghost use Rattle.replay_inputs.specs.Inputs.{AllWithin};
ghost use Rattle.replay_sink.specs.Sink.{Fits, Open};
ghost use Rattle.replay_loop.specs.Turns.{Played};

use recording::Header;
use replay_inputs::Files;
use replay_step::Stream;
use std::fs::File;

// Until the log is over, no line is of use any more, or a read fails.
fn goes_on(stream: Stream) -> bool
    ensures { result ≡ true → (stream.over ≡ false) × (Open stream.sink) }
{
    !stream.over
        && replay_inputs::failed(stream.inputs).is_none()
        && replay_sink::goes_on(stream.sink)
}

// Line by line. The turns are counted so that the loop ends for certain: 2^64 of them take centuries.
pub fn all(
    header: Header,
    first: Stream,
    files: &Files<'_>,
    log: Option<&File>,
    events: &mut [u8],
    far: &mut [u8],
    near: &mut [u8],
    envelope: &mut [f32],
    levels: &mut [f32],
    window: &mut [f32],
    prefix: &mut [f64],
    squares: &mut [f64],
    scores: &mut [f64],
    lag_sums: &mut [f64],
    room: &mut [u8],
) -> Stream
    requires { (AllWithin first.inputs) × (length events.old ≡ 65536) × (length far.old ≡ 65536) × (length near.old ≡ 65536) × (Fits first.sink room.old) }
    ensures { (Played header first (lent envelope.old levels.old window.old prefix.old squares.old scores.old lag_sums.old) events.old far.old near.old room.old result (lent envelope.new levels.new window.new prefix.new squares.new scores.new lag_sums.new) events.new far.new near.new room.new) × (Fits result.sink room.new) }
{
    let mut stream = first;
    for _turn in 0..u64::MAX {
        if !goes_on(stream) {
            return stream;
        }
        stream = replay_step::turn(
            header, stream, files, log, events, far, near, envelope, levels, window, prefix,
            squares, scores, lag_sums, room,
        );
    }
    stream
}
