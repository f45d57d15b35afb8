// Where two logs part: a log judged line by line, and two walked side by side.
#![tactic(auto)]

ghost use Rattle.std.specs.Prelude.{◌≡◌, leb};
ghost use Rattle.log_parts.specs.Judged.{least_after, judged_line, judged_text};
ghost use Rattle.log_text.specs.Text.{same_text};
ghost use Rattle.log_parts.specs.Turns.{turn_of};

use log_lines::Line;

// The sorts of lines that a report names: `replay ..`, frames, cycles, `event .. refused ..`, and what ends a log, `end ..` or `bad ..`.
#[derive(Clone, Copy, PartialEq, Eq)]
pub enum Sort {
    Headers,
    Frames,
    Cycles,
    Refusals,
    Closings,
}

// The first lines of a sort in which two logs differ: what each of them has there, if anything.
#[derive(Clone, Copy)]
pub struct Difference {
    pub first: Option<Line>,
    pub second: Option<Line>,
}

// How many lines of a sort differ, and the first of them.
#[derive(Clone, Copy)]
pub struct Tally {
    pub count: u64,
    pub first: Option<Difference>,
}

// Where two logs part, sort by sort; how many frames and cycles differ; and the first line in which the two are not the same.
#[derive(Clone, Copy)]
pub struct Report {
    pub headers: Option<Difference>,
    pub frames: Option<Difference>,
    pub cycles: Option<Difference>,
    pub refusals: Option<Difference>,
    pub closings: Option<Difference>,
    pub differing_frames: u64,
    pub differing_cycles: u64,
    pub place: u64,
}

// A line that the log goes on with, and the last frame and cycle numbers with it, where there were any.
#[derive(Clone, Copy)]
pub struct Judged {
    pub line: Line,
    pub frames: Option<u64>,
    pub cycles: Option<u64>,
}

// The number rises above the last one.
fn above(last: Option<u64>, n: u64) -> bool
    ensures { result ≡ leb (least_after last) n }
{
    last.is_none_or(|m| m < n)
}

fn judge_line(frames: Option<u64>, cycles: Option<u64>, line: Line) -> Option<Judged>
    ensures { result ≡ judged_line frames cycles line }
{
    match line {
        Line::Frame(n, _word) => above(frames, n).then_some(Judged {
            line,
            frames: Some(n),
            cycles,
        }),
        Line::Cycle(n, _verdict) => above(cycles, n).then_some(Judged {
            line,
            frames,
            cycles: Some(n),
        }),
        Line::Replay(..)
        | Line::Refused(..)
        | Line::End(..)
        | Line::BadHeader
        | Line::BadEvent(_)
        | Line::BadTotals => Some(Judged {
            line,
            frames,
            cycles,
        }),
    }
}

// The next line of a log, after these last numbers.
pub fn judge(frames: Option<u64>, cycles: Option<u64>, text: &[u8]) -> Option<Judged>
    ensures { result ≡ judged_text frames cycles text.now }
{
    let line = log_lines::read_line(text)?;
    judge_line(frames, cycles, line)
}

// What a walk over both logs does next: it is over; both lines are taken and are alike; the first log's is taken alone, or the second's alone; both are taken and differ.
#[derive(Clone, Copy)]
pub enum Turn {
    Over,
    Alike,
    First,
    Second,
    Both,
}

fn of_pair(m: u64, n: u64, same: bool) -> Turn
    ensures { result ≡ turn_of (Some m) (Some n) same }
{
    if m < n {
        return Turn::First;
    }
    if n < m {
        return Turn::Second;
    }
    if same {
        return Turn::Alike;
    }
    Turn::Both
}

// The next turn of the walk, by the numbers and the texts of the lines at hand; a log that is over has none.
pub fn turn_of(first: Option<u64>, text: &[u8], second: Option<u64>, other: &[u8]) -> Turn
    ensures { result ≡ turn_of first second (same_text text.now other.now) }
{
    match (first, second) {
        (None, None) => Turn::Over,
        (None, Some(_)) => Turn::Second,
        (Some(_), None) => Turn::First,
        (Some(m), Some(n)) => of_pair(m, n, log_text::same_text(text, other)),
    }
}
