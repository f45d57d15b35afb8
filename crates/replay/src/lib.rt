// The log of a recording: what stands before its first event and what closes it; how the answers of scan and tracker read in it.
#![tactic(auto)]

pub mod words; // how the answers of scan and tracker read in a log
pub mod events; // a session with one part anew, and a run of near samples
pub mod starting; // the session and the buffers before the first event

ghost use Rattle.std.specs.Prelude.{◌≡◌};
ghost use Rattle.log_lines.specs.declared.Line.TheVariants as line;
ghost use Rattle.scan_score.specs.Observing.{lent};
ghost use Rattle.replay.specs.Log;
ghost use Rattle.replay.specs.Beginning.{beginning, beginning_of};

use log_lines::Line;
use recording::{Header, Used};
use scan::Scan;
use tracker::Tracker;

// What is carried from one event to the next, beside the scan's lent buffers. frames and cycles are the numbers of the next of each.
#[derive(Clone, Copy)]
pub struct Session {
    pub scan: Scan,
    pub tracker: Tracker,
    pub frames: u64,
    pub cycles: u64,
    pub used: Used,
}

// A session, or the number with which the start is refused: 1 or 2.
#[derive(Clone, Copy)]
pub enum Begun {
    Refused(u8),
    Ready(Session),
}

// The first line of a log whose header is good.
pub fn opening(header: Header) -> Line
    ensures { result ≡ line.Replay header.rate header.ceiling }
{
    Line::Replay(header.rate, header.ceiling)
}

// The line that closes a log in which no event was bad.
pub fn closing(header: Header, session: Session) -> Line
    ensures { result ≡ Log.closing header session }
{
    let used = session.used;
    if !recording::all_used(header, used) {
        return Line::BadTotals;
    }
    Line::End(session.frames, session.cycles)
}

// What a log begins with: all lent buffers are zeros, the session is new. Refused, nothing is written.
pub fn start(
    header: Header,
    envelope: &mut [f32],
    levels: &mut [f32],
    window: &mut [f32],
    prefix: &mut [f64],
    squares: &mut [f64],
    scores: &mut [f64],
    lag_sums: &mut [f64],
) -> Begun
    ensures { beginning result (lent envelope.new levels.new window.new prefix.new squares.new scores.new lag_sums.new) ≡ beginning_of header (lent envelope.old levels.old window.old prefix.old squares.old scores.old lag_sums.old) }
{
    let n = starting::refusal(
        header.rate,
        header.ceiling,
        envelope,
        levels,
        window,
        prefix,
        squares,
        scores,
        lag_sums,
    );
    if n != 0 {
        return Begun::Refused(n);
    }
    starting::clear(envelope, levels, window, prefix, squares, scores, lag_sums);
    Begun::Ready(starting::new_session(header.rate, header.ceiling))
}
