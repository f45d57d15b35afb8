// One turn: an event, the rest of a near event up to its next line, or the log's first or last line.
#![tactic(auto)]

pub mod near; // the samples that a near event has left

ghost use Rattle.std.specs.Prelude.{◌≡◌, min, ltb, length};
ghost use Rattle.recording.specs.Samples.{bytes_of};
ghost use Rattle.scan_score.specs.Observing.{lent};
ghost use Rattle.replay_near.specs.Telling.{Holds};
ghost use Rattle.replay_stream.specs.Stream;
ghost use Rattle.replay_stream.specs.Stream.{bytes_used};
ghost use Rattle.replay_stream.specs.Giving.{hand_of, turned, gives};

use log_lines::Line;
use recording::{Form, Header};
use replay::Session;
use replay_entry::stands;
use replay_stream::{Answer, Ended, Input, Place, Stage, Turned};

// Whether the samples that a near event has left are not all at hand.
fn lacks(form: Form, near: &[u8], left: u32) -> bool
    ensures { result ≡ ltb (min (length near.now) (bytes_of form 4096)) (bytes_of form left) }
{
    left > 4096 || near.len() < recording::bytes_of(form, left) as usize
}

pub fn turn(
    header: Header,
    place: Place,
    events: &[u8],
    far: &[u8],
    near: &[u8],
    ended: Ended,
    samples: &mut [f32],
    envelope: &mut [f32],
    levels: &mut [f32],
    window: &mut [f32],
    prefix: &mut [f64],
    squares: &mut [f64],
    scores: &mut [f64],
    lag_sums: &mut [f64],
) -> Turned
    requires { Holds far.now samples.old × Holds near.now samples.old }
    ensures { gives result (lent envelope.new levels.new window.new prefix.new squares.new scores.new lag_sums.new) ≡ Stream.turn header place (lent envelope.old levels.old window.old prefix.old squares.old scores.old lag_sums.old) (hand_of events.now far.now near.now ended) }
{
    let Place {
        number,
        stage,
        session,
    } = place;
    match stage {
        Stage::Opening => stands(
            number,
            Stage::Events,
            session,
            Answer::Says(replay::opening(header)),
        ),
        Stage::Events => {
            if number < header.events {
                return replay_entry::entry_turn(
                    header, number, session, events, far, near, ended, samples, envelope, lag_sums,
                );
            }
            let line = replay::closing(header, session);
            stands(number, Stage::Closed, session, Answer::Says(line))
        }
        Stage::Midway { event, index, left } => {
            if lacks(header.form, near, left) {
                return stands(number, stage, session, Answer::Wants(Input::NearSide));
            }
            near::near_turn(
                header.form,
                number,
                event,
                index,
                left,
                session,
                near,
                samples,
                envelope,
                levels,
                window,
                prefix,
                squares,
                scores,
                lag_sums,
            )
        }
        Stage::Closed => stands(number, Stage::Closed, session, Answer::Over),
    }
}
