// The samples that a near event has left.
ghost use Rattle.std.specs.Prelude.{◌≡◌, ◌≤◌, ◌-◌};
ghost use Rattle.recording.specs.Samples.{bytes_of};
ghost use Rattle.scan_score.specs.Observing.{lent};
ghost use Rattle.replay_near.specs.Telling.{Room};
ghost use Rattle.replay_stream.specs.Stream.{bytes_used, near_turn, midway};
ghost use Rattle.replay_stream.specs.Giving.{turned, gives};
ghost use Rattle.replay_turn.specs.NearHand.{near_hand};

use recording::Form;
use replay::Session;
use replay_near::NearCut;
use replay_stream::{Bytes, Place, Turned};

fn after_near(form: Form, number: u32, event: u32, left: u32, cut: NearCut) -> Turned
    requires { (cut.left ≤ left) × (left ≤ 4096) }
    ensures { result ≡ turned number (midway event cut.index cut.left) cut.session cut.answer (bytes_used 0 0 (bytes_of form (left - cut.left))) }
{
    let rest = cut.left;
    Turned {
        place: Place {
            number,
            stage: replay_entry::stage_at(event, cut.index, rest),
            session: cut.session,
        },
        answer: cut.answer,
        used: Bytes {
            events: 0,
            far: 0,
            near: recording::bytes_of(form, left - rest as u32) as usize,
        },
    }
}

// The samples that a near event has left, up to the next line.
pub fn near_turn(
    form: Form,
    number: u32,
    event: u32,
    index: u64,
    left: u32,
    session: Session,
    near: &[u8],
    samples: &mut [f32],
    envelope: &[f32],
    levels: &mut [f32],
    window: &mut [f32],
    prefix: &mut [f64],
    squares: &mut [f64],
    scores: &mut [f64],
    lag_sums: &mut [f64],
) -> Turned
    requires { Room form left near.now samples.old }
    ensures { gives result (lent envelope.now levels.new window.new prefix.new squares.new scores.new lag_sums.new) ≡ near_turn form number event index left session (lent envelope.now levels.old window.old prefix.old squares.old scores.old lag_sums.old) (near_hand near.now) }
{
    let cut = replay_near::near_cut(
        form, event, session, near, left, index, samples, envelope, levels, window, prefix,
        squares, scores, lag_sums,
    );
    after_near(form, number, event, left, cut)
}
