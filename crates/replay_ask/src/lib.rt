// The next line of a log, from the bytes at hand of the three inputs: `next` is handed these and nothing else.
#![tactic(auto)]

ghost use Rattle.std.specs.Prelude.{◌≡◌, length};
ghost use Rattle.scan_score.specs.Observing.{lent};
ghost use Rattle.replay_stream.specs.Stream.{next_line};
ghost use Rattle.replay_stream.specs.Giving.{gives};
ghost use Rattle.replay_inputs.specs.Inputs.{AllWithin, hand_at};

use recording::Header;
use replay_inputs::Inputs;
use replay_stream::{Place, Turned};

// The next line, from the bytes at hand.
pub fn ask(
    header: Header,
    place: Place,
    inputs: Inputs,
    events: &[u8],
    far: &[u8],
    near: &[u8],
    envelope: &mut [f32],
    levels: &mut [f32],
    window: &mut [f32],
    prefix: &mut [f64],
    squares: &mut [f64],
    scores: &mut [f64],
    lag_sums: &mut [f64],
) -> Turned
    requires { (AllWithin inputs) × (length events.now ≡ 65536) × (length far.now ≡ 65536) × (length near.now ≡ 65536) }
    ensures { gives result (lent envelope.new levels.new window.new prefix.new squares.new scores.new lag_sums.new) ≡ next_line header place (lent envelope.old levels.old window.old prefix.old squares.old scores.old lag_sums.old) (hand_at inputs events.now far.now near.now) }
{
    let e = inputs.events.at;
    let e_end = inputs.events.end;
    let f = inputs.far.at;
    let f_end = inputs.far.end;
    let n = inputs.near.at;
    let n_end = inputs.near.end;
    replay_next::next(
        header,
        place,
        &events[e..e_end],
        &far[f..f_end],
        &near[n..n_end],
        replay_inputs::ended(inputs),
        envelope,
        levels,
        window,
        prefix,
        squares,
        scores,
        lag_sums,
    )
}
