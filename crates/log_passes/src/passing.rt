// Two logs by one sort of lines: the lesser number goes first, and lines of one number are held against each other. Lines without numbers of their own go pair by pair.
ghost use Rattle.std.specs.Prelude.{◌≡◌, length, ◌≤◌, ◌+◌};
ghost use Rattle.log_lines.specs.Steps.{Put};
ghost use Rattle.log_parts.specs.Sorts.{sort_of, is_of, number_of};
ghost use Rattle.log_parts.specs.Named.{line_in};
ghost use Rattle.log_passes.specs.Taking.{taken_in};
ghost use Rattle.log_passes.specs.Passing.{front_at, side_text, turn_at, sought_line, sought_read, sought_in, marked, first_sought, second_sought, turned_by, unbegun, stepped};

use crate::taking;
use crate::taking::Taken;
use log_lines::Line;
use log_parts::{Difference, Sort, Tally, Turn};

// The next line of the sort in one log is still sought, or this stands there: a line, or nothing more. (An Option of an Option would not say which of the two is missing.)
#[derive(Clone, Copy)]
pub enum Held {
    Sought,
    Has(Option<Line>),
}

#[derive(Clone, Copy)]
pub struct Pass {
    pub first: Held,
    pub second: Held,
    pub tally: Tally,
}

// A line of the sort, behind which the log goes on after so many bytes; a line of another sort, of so many bytes; nothing, for the log is over; more bytes are wanted; a
// line that is none of a log.
#[derive(Clone, Copy)]
pub enum Found {
    Here(Line, usize),
    Other(usize),
    Nothing,
    Wants,
    Strange,
}

// The pass goes on; more bytes of one log are wanted; it is over; a line that is none of a log.
#[derive(Clone, Copy)]
pub enum Need {
    Goes,
    WantsFirst,
    WantsSecond,
    Over,
    Strange,
}

// The pass, how many bytes of each log are used, and what is to be done.
#[derive(Clone, Copy)]
pub struct Step {
    pub pass: Pass,
    pub first_used: usize,
    pub second_used: usize,
    pub need: Need,
}

fn sort_of(line: Line) -> Sort
    ensures { result ≡ sort_of line }
{
    match line {
        Line::Replay(_rate, _ceiling) => Sort::Headers,
        Line::Frame(_n, _word) => Sort::Frames,
        Line::Cycle(_n, _verdict) => Sort::Cycles,
        Line::Refused(_event, _number) => Sort::Refusals,
        Line::End(_frames, _cycles) => Sort::Closings,
        Line::BadHeader => Sort::Closings,
        Line::BadEvent(_event) => Sort::Closings,
        Line::BadTotals => Sort::Closings,
    }
}

fn is_of(sort: Sort, line: Line) -> bool
    ensures { result ≡ is_of sort line }
{
    sort == sort_of(line)
}

fn number_of(line: Line) -> u64
    ensures { result ≡ number_of line }
{
    match line {
        Line::Replay(_rate, _ceiling) => 0,
        Line::Frame(n, _word) => n,
        Line::Cycle(n, _verdict) => n,
        Line::Refused(_event, _number) => 0,
        Line::End(_frames, _cycles) => 0,
        Line::BadHeader => 0,
        Line::BadEvent(_event) => 0,
        Line::BadTotals => 0,
    }
}

// ---- one log: the next line of the sort

fn sought_line(sort: Sort, used: usize, line: Line) -> Found
    ensures { result ≡ sought_line sort used line }
{
    if is_of(sort, line) {
        return Found::Here(line, used);
    }
    Found::Other(used)
}

fn sought_text(sort: Sort, used: usize, text: &[u8]) -> Found
    ensures { result ≡ sought_read sort used (line_in text.now) }
{
    match log_lines::read_line(text) {
        Some(line) => sought_line(sort, used, line),
        None => Found::Strange,
    }
}

fn seek(sort: Sort, bytes: &[u8], ended: bool) -> Found
    ensures { result ≡ sought_in sort bytes.now (taken_in bytes.now ended) }
{
    match taking::line_of(bytes, ended) {
        Taken::Text(n, used) => sought_text(sort, used, &bytes[..n]),
        Taken::Nothing => Found::Nothing,
        Taken::Wants => Found::Wants,
        Taken::Long => Found::Strange,
    }
}

// ---- both logs: which line goes first

fn front_at(line: Option<Line>) -> Option<u64>
    ensures { result ≡ front_at line }
{
    line.map(number_of)
}

fn put_side(out: &mut [u8], line: Option<Line>) -> usize
    requires { 75 ≤ length out.old }
    ensures { Put out.old 0 (side_text line) out.new result }
{
    match line {
        None => 0,
        Some(line) => log_lines::put_line(out, line),
    }
}

fn turn_at(first: Option<Line>, second: Option<Line>) -> Turn
    ensures { result ≡ turn_at first second }
{
    let mut text = [0u8; 75];
    let mut other = [0u8; 75];
    let m = put_side(&mut text, first);
    let n = put_side(&mut other, second);
    log_parts::turn_of(front_at(first), &text[..m], front_at(second), &other[..n])
}

// The first difference stays.
fn mark(tally: Tally, x: Option<Line>, y: Option<Line>) -> Tally
    ensures { result ≡ marked tally x y }
{
    let difference = Difference {
        first: x,
        second: y,
    };
    Tally {
        count: tally.count.saturating_add(1),
        first: tally.first.or(Some(difference)),
    }
}

// ---- a step

fn step_of(pass: Pass, first_used: usize, second_used: usize, need: Need) -> Step
    ensures { result ≡ record { pass = pass; first_used = first_used; second_used = second_used; need = need } }
{
    Step {
        pass,
        first_used,
        second_used,
        need,
    }
}

fn pass_of(first: Held, second: Held, tally: Tally) -> Pass
    ensures { result ≡ record { first = first; second = second; tally = tally } }
{
    Pass {
        first,
        second,
        tally,
    }
}

fn first_sought(pass: Pass, found: Found) -> Step
    ensures { result ≡ first_sought pass found }
{
    match found {
        Found::Here(line, n) => {
            let first = Held::Has(Some(line));
            step_of(Pass { first, ..pass }, n, 0, Need::Goes)
        }
        Found::Other(n) => step_of(pass, n, 0, Need::Goes),
        Found::Nothing => {
            let first = Held::Has(None);
            step_of(Pass { first, ..pass }, 0, 0, Need::Goes)
        }
        Found::Wants => step_of(pass, 0, 0, Need::WantsFirst),
        Found::Strange => step_of(pass, 0, 0, Need::Strange),
    }
}

fn second_sought(pass: Pass, found: Found) -> Step
    ensures { result ≡ second_sought pass found }
{
    match found {
        Found::Here(line, n) => {
            let second = Held::Has(Some(line));
            step_of(Pass { second, ..pass }, 0, n, Need::Goes)
        }
        Found::Other(n) => step_of(pass, 0, n, Need::Goes),
        Found::Nothing => {
            let second = Held::Has(None);
            step_of(Pass { second, ..pass }, 0, 0, Need::Goes)
        }
        Found::Wants => step_of(pass, 0, 0, Need::WantsSecond),
        Found::Strange => step_of(pass, 0, 0, Need::Strange),
    }
}

fn turned_by(tally: Tally, x: Option<Line>, y: Option<Line>, turn: Turn) -> Step
    ensures { result ≡ turned_by tally x y turn }
{
    match turn {
        Turn::Over => step_of(pass_of(Held::Has(x), Held::Has(y), tally), 0, 0, Need::Over),
        Turn::Alike => step_of(pass_of(Held::Sought, Held::Sought, tally), 0, 0, Need::Goes),
        Turn::First => step_of(
            pass_of(Held::Sought, Held::Has(y), mark(tally, x, None)),
            0,
            0,
            Need::Goes,
        ),
        Turn::Second => step_of(
            pass_of(Held::Has(x), Held::Sought, mark(tally, None, y)),
            0,
            0,
            Need::Goes,
        ),
        Turn::Both => step_of(
            pass_of(Held::Sought, Held::Sought, mark(tally, x, y)),
            0,
            0,
            Need::Goes,
        ),
    }
}

// Before the first line of either log.
pub fn fresh() -> Pass
    ensures { result ≡ unbegun }
{
    pass_of(
        Held::Sought,
        Held::Sought,
        Tally {
            count: 0,
            first: None,
        },
    )
}

// One step of the pass of a sort, from the bytes at hand of each log; `ended` of a log if none come behind them.
pub fn pass_next(
    sort: Sort,
    pass: Pass,
    first: &[u8],
    first_ended: bool,
    second: &[u8],
    second_ended: bool,
) -> Step
    ensures { result ≡ stepped sort pass first.now first_ended second.now second_ended }
{
    match (pass.first, pass.second) {
        (Held::Sought, _) => first_sought(pass, seek(sort, first, first_ended)),
        (Held::Has(_), Held::Sought) => second_sought(pass, seek(sort, second, second_ended)),
        (Held::Has(x), Held::Has(y)) => turned_by(pass.tally, x, y, turn_at(x, y)),
    }
}
