// What the first event finds: the lent buffers judged and cleared, a new session.
ghost use Rattle.std.specs.Prelude.{◌≡◌, true, length};
ghost use Rattle.folds.specs.Sums.{zeros};
ghost use Rattle.scan.specs.Bins.{in_table};
ghost use Rattle.scan_score.specs.Observing.{lent};
ghost use Rattle.replay.specs.Log.{new_session};
ghost use Rattle.replay.specs.Beginning.{start_refusal};

use crate::Session;
use recording::Used;
use scan_calls::rules;
use tracker::Tracker;

// 1 or 2, and 0 for none.
pub fn refusal(
    rate: u32,
    ceiling: u32,
    envelope: &[f32],
    levels: &[f32],
    window: &[f32],
    prefix: &[f64],
    squares: &[f64],
    scores: &[f64],
    lag_sums: &[f64],
) -> u8
    ensures { result ≡ start_refusal rate ceiling (lent envelope.now levels.now window.now prefix.now squares.now scores.now lag_sums.now) }
{
    if !rules::in_table(rate, ceiling) {
        return answers::OUTSIDE_TABLE;
    }
    let g = rules::geometry_of(rate, ceiling);
    if !scan_score::refusal::all_lengths(
        scan_calls::SLACK,
        g,
        envelope,
        levels,
        window,
        prefix,
        squares,
        scores,
        lag_sums,
    ) {
        return answers::WRONG_LENGTH;
    }
    0
}

pub fn clear(
    envelope: &mut [f32],
    levels: &mut [f32],
    window: &mut [f32],
    prefix: &mut [f64],
    squares: &mut [f64],
    scores: &mut [f64],
    lag_sums: &mut [f64],
)
    ensures { lent envelope.new levels.new window.new prefix.new squares.new scores.new lag_sums.new ≡ lent (zeros (length envelope.old)) (zeros (length levels.old)) (zeros (length window.old)) (zeros (length prefix.old)) (zeros (length squares.old)) (zeros (length scores.old)) (zeros (length lag_sums.old)) }
{
    folds::clear32(envelope);
    folds::clear32(levels);
    folds::clear32(window);
    folds::clear64(prefix);
    folds::clear64(squares);
    folds::clear64(scores);
    folds::clear64(lag_sums);
}

pub fn new_session(rate: u32, ceiling: u32) -> Session
    requires { in_table rate ceiling ≡ true }
    ensures { result ≡ new_session rate ceiling }
{
    let scan = scan_calls::parts::new_scan(rate, ceiling);
    let made = Tracker::new(rate);
    let tracker = made.tracker;
    let used = Used { far: 0, near: 0 };
    Session {
        scan,
        tracker,
        frames: 0,
        cycles: 0,
        used,
    }
}
