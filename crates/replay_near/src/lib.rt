// Near samples up to the next line of the log.
#![tactic(auto)]

ghost use Rattle.std.specs.Prelude.{◌≡◌};
ghost use Rattle.answers.specs.Pick.{pick};
ghost use Rattle.recording.specs.Samples.{samples_in};
ghost use Rattle.scan.specs.State.{Buffers};
ghost use Rattle.scan_score.specs.Observing.{lent};
ghost use Rattle.replay.specs.Events.{after_score, score_played, sample_played};
ghost use Rattle.replay_stream.specs.Stream.{near_cut};
ghost use Rattle.replay_near.specs.Telling.{tells, tells_of, cuts_at, cut_tells, filled, Room};

use log_lines::Line;
use recording::Form;
use replay::{Session, events, words};
use replay_stream::Answer;
use scan::{Scored, Scoring, Taking};

// What one near sample left: Says its line, or Silent. `ends`: the rest of the event is dropped.
#[derive(Clone, Copy)]
pub struct Played {
    pub session: Session,
    pub answer: Answer,
    pub ends: bool,
}

// Near samples up to the next line: what they left, the index of the sample behind them, and how many are still to be played.
#[derive(Clone, Copy)]
pub struct NearCut {
    pub session: Session,
    pub answer: Answer,
    pub index: u64,
    pub left: usize,
}

// A frame was scored, or its scoring was refused.
fn scored(event: u32, session: Session, score: Scored) -> Played
    ensures { (b : Buffers) → tells result b ≡ tells_of (after_score event session score.scan b score.answer) }
{
    match score.answer {
        Scoring::Refused(number) => Played {
            session: events::with_scan(session, score.scan),
            answer: Answer::Says(Line::Refused(event, number)),
            ends: true,
        },
        Scoring::Frame(frame, _) => {
            let next = events::with_frame(session, score.scan);
            Played {
                session: next,
                answer: Answer::Says(Line::Frame(session.frames, words::word_of(frame))),
                ends: false,
            }
        }
    }
}

fn score(
    event: u32,
    session: Session,
    envelope: &[f32],
    levels: &[f32],
    window: &mut [f32],
    prefix: &mut [f64],
    squares: &mut [f64],
    scores: &mut [f64],
    lag_sums: &mut [f64],
) -> Played
    ensures { tells result (lent envelope.now levels.now window.new prefix.new squares.new scores.new lag_sums.new) ≡ tells_of (score_played event session (lent envelope.now levels.now window.old prefix.old squares.old scores.old lag_sums.old)) }
{
    let seen = scan_score::observe(
        session.scan,
        envelope,
        levels,
        window,
        prefix,
        squares,
        scores,
        lag_sums,
    );
    scored(event, session, seen)
}

// One near sample; where it fills a frame, the frame is scored at once.
fn sample(
    event: u32,
    session: Session,
    x: f32,
    index: u64,
    envelope: &[f32],
    levels: &mut [f32],
    window: &mut [f32],
    prefix: &mut [f64],
    squares: &mut [f64],
    scores: &mut [f64],
    lag_sums: &mut [f64],
) -> Played
    ensures { tells result (lent envelope.now levels.new window.new prefix.new squares.new scores.new lag_sums.new) ≡ tells_of (sample_played event session (lent envelope.now levels.old window.old prefix.old squares.old scores.old lag_sums.old) x index) }
{
    let took = scan_push::push_near(session.scan, levels, x, index);
    let next = events::with_scan(session, took.scan);
    match took.answer {
        Taking::Refused(number) => Played {
            session: next,
            answer: Answer::Says(Line::Refused(event, number)),
            ends: true,
        },
        Taking::Ignored | Taking::Dropped | Taking::Taken => Played {
            session: next,
            answer: Answer::Silent,
            ends: false,
        },
        Taking::Full => score(
            event, next, envelope, levels, window, prefix, squares, scores, lag_sums,
        ),
    }
}

// A refusal drops the rest of the event.
fn cut_behind(one: Played, index: u64, left: usize) -> NearCut
    ensures { result ≡ record { session = one.session; answer = one.answer; index = index; left = pick one.ends 0 left } }
{
    NearCut {
        session: one.session,
        answer: one.answer,
        index,
        left: if one.ends { 0 } else { left },
    }
}

// A run over the samples that pass, and the one behind them, which is refused or fills a frame: either way it logs a line.
fn near_line(
    event: u32,
    session: Session,
    samples: &[f32],
    first: u64,
    envelope: &[f32],
    levels: &mut [f32],
    window: &mut [f32],
    prefix: &mut [f64],
    squares: &mut [f64],
    scores: &mut [f64],
    lag_sums: &mut [f64],
) -> NearCut
    ensures { cuts_at result (lent envelope.now levels.new window.new prefix.new squares.new scores.new lag_sums.new) ≡ cut_tells (near_cut event session (lent envelope.now levels.old window.old prefix.old squares.old scores.old lag_sums.old) samples.now first) }
{
    let passed = events::pass(session, levels, samples, first);
    let reached = passed.session;
    let index = passed.index;
    let i = passed.count;
    if i >= samples.len() {
        return NearCut {
            session: reached,
            answer: Answer::Silent,
            index,
            left: 0,
        };
    }
    let x = samples[i];
    let one = sample(
        event, reached, x, index, envelope, levels, window, prefix, squares, scores, lag_sums,
    );
    cut_behind(one, index.saturating_add(1), samples.len() - i - 1)
}

// The first n samples that the bytes hold.
pub fn decode_first(form: Form, bytes: &[u8], n: usize, samples: &mut [f32])
    requires { Room form n bytes.now samples.old }
    ensures { samples.new ≡ filled form bytes.now n samples.old }
{
    let count = recording::decode(form, bytes, &mut samples[0..n]);
}

// The samples that a near event has left, up to the next line.
pub fn near_cut(
    form: Form,
    event: u32,
    session: Session,
    near: &[u8],
    left: u32,
    index: u64,
    samples: &mut [f32],
    envelope: &[f32],
    levels: &mut [f32],
    window: &mut [f32],
    prefix: &mut [f64],
    squares: &mut [f64],
    scores: &mut [f64],
    lag_sums: &mut [f64],
) -> NearCut
    requires { Room form left near.now samples.old }
    ensures { cuts_at result (lent envelope.now levels.new window.new prefix.new squares.new scores.new lag_sums.new) ≡ cut_tells (near_cut event session (lent envelope.now levels.old window.old prefix.old squares.old scores.old lag_sums.old) (samples_in form near.now left) index) }
{
    let n = left as usize;
    decode_first(form, near, n, samples);
    near_line(
        event,
        session,
        &samples[0..n],
        index,
        envelope,
        levels,
        window,
        prefix,
        squares,
        scores,
        lag_sums,
    )
}
