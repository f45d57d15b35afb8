// The next line of a log, from the bytes at hand of the three inputs: a call that does no input or output. replay_stream defines what it answers.
#![tactic(auto)]

ghost use Rattle.std.specs.Prelude.{◌≡◌, length};
ghost use Rattle.scan_score.specs.Observing.{lent};
ghost use Rattle.replay_near.specs.Telling.{Holds};
ghost use Rattle.replay_stream.specs.Stream;
ghost use Rattle.replay_stream.specs.Stream.{next_line};
ghost use Rattle.replay_stream.specs.Giving.{hand_of, gives};

use recording::Header;
use replay_stream::{Answer, Bytes, Ended, Place, Turned};

// Whether a turn said nothing, so that the next one follows.
fn silent(answer: Answer) -> bool
    ensures { result ≡ Stream.silent answer }
{
    matches!(answer, Answer::Silent)
}

// Turns, until one has something to say.
fn turns(
    header: Header,
    place: Place,
    events: &[u8],
    far: &[u8],
    near: &[u8],
    ended: Ended,
    samples: &mut [f32],
    envelope: &mut [f32],
    levels: &mut [f32],
    window: &mut [f32],
    prefix: &mut [f64],
    squares: &mut [f64],
    scores: &mut [f64],
    lag_sums: &mut [f64],
) -> Turned
    requires { Holds far.now samples.old × Holds near.now samples.old }
    ensures { gives result (lent envelope.new levels.new window.new prefix.new squares.new scores.new lag_sums.new) ≡ next_line header place (lent envelope.old levels.old window.old prefix.old squares.old scores.old lag_sums.old) (hand_of events.now far.now near.now ended) }
{
    let mut at = place;
    let mut used = Bytes {
        events: 0,
        far: 0,
        near: 0,
    };
    loop {
        let t = replay_runs::advance(
            header,
            at,
            &events[used.events..],
            &far[used.far..],
            &near[used.near..],
            ended,
            samples,
            envelope,
            levels,
            window,
            prefix,
            squares,
            scores,
            lag_sums,
        );
        used = used.plus(t.used);
        at = t.place;
        if !silent(t.answer) {
            return Turned { used, ..t };
        }
    }
}

fn no_space() -> [f32; 0]
    ensures { 0 ≡ length result }
{
    [0.0; 0]
}

// As many samples as an event has at most.
fn sample_space() -> [f32; 4096]
    ensures { 4096 ≡ length result }
{
    [0.0; 4096]
}

// No byte of a sample is at hand, as in a recording of cycles alone: room for samples need not be made and cleared.
fn without_samples(
    header: Header,
    place: Place,
    events: &[u8],
    far: &[u8],
    near: &[u8],
    ended: Ended,
    envelope: &mut [f32],
    levels: &mut [f32],
    window: &mut [f32],
    prefix: &mut [f64],
    squares: &mut [f64],
    scores: &mut [f64],
    lag_sums: &mut [f64],
) -> Turned
    requires { (length far.now ≡ 0) × (length near.now ≡ 0) }
    ensures { gives result (lent envelope.new levels.new window.new prefix.new squares.new scores.new lag_sums.new) ≡ next_line header place (lent envelope.old levels.old window.old prefix.old squares.old scores.old lag_sums.old) (hand_of events.now far.now near.now ended) }
{
    let mut samples = no_space();
    turns(
        header,
        place,
        events,
        far,
        near,
        ended,
        &mut samples,
        envelope,
        levels,
        window,
        prefix,
        squares,
        scores,
        lag_sums,
    )
}

fn with_samples(
    header: Header,
    place: Place,
    events: &[u8],
    far: &[u8],
    near: &[u8],
    ended: Ended,
    envelope: &mut [f32],
    levels: &mut [f32],
    window: &mut [f32],
    prefix: &mut [f64],
    squares: &mut [f64],
    scores: &mut [f64],
    lag_sums: &mut [f64],
) -> Turned
    ensures { gives result (lent envelope.new levels.new window.new prefix.new squares.new scores.new lag_sums.new) ≡ next_line header place (lent envelope.old levels.old window.old prefix.old squares.old scores.old lag_sums.old) (hand_of events.now far.now near.now ended) }
{
    let mut samples = sample_space();
    turns(
        header,
        place,
        events,
        far,
        near,
        ended,
        &mut samples,
        envelope,
        levels,
        window,
        prefix,
        squares,
        scores,
        lag_sums,
    )
}

// The next line of the log, which input more is wanted of, or that the log is over. The host hands on what is not used, and the place and the buffers as they are left.
pub fn next(
    header: Header,
    place: Place,
    events: &[u8],
    far: &[u8],
    near: &[u8],
    ended: Ended,
    envelope: &mut [f32],
    levels: &mut [f32],
    window: &mut [f32],
    prefix: &mut [f64],
    squares: &mut [f64],
    scores: &mut [f64],
    lag_sums: &mut [f64],
) -> Turned
    ensures { gives result (lent envelope.new levels.new window.new prefix.new squares.new scores.new lag_sums.new) ≡ next_line header place (lent envelope.old levels.old window.old prefix.old squares.old scores.old lag_sums.old) (hand_of events.now far.now near.now ended) }
{
    if far.is_empty() && near.is_empty() {
        return without_samples(
            header, place, events, far, near, ended, envelope, levels, window, prefix, squares,
            scores, lag_sums,
        );
    }
    with_samples(
        header, place, events, far, near, ended, envelope, levels, window, prefix, squares, scores,
        lag_sums,
    )
}
