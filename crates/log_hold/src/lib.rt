// A log held against the lines that should stand in it, line by line. The log is read once, and no further than to its first wrong line.
#![tactic(auto)]

ghost use Rattle.std.specs.Prelude.{◌≡◌, true, false, ◌+◌, ◌≤◌, eqb, length};
ghost use Rattle.answers.specs.Pick.{pick};
ghost use Rattle.log_lines.specs.Lines.{text_of};
ghost use Rattle.log_text.specs.Text.{same_text};
ghost use Rattle.pipes.specs.Window.{Within};
ghost use Rattle.log_hold.specs.Held.{held, wanting};
ghost use Rattle.log_hold.specs.Reading.{seen, Sought, Goes, Held};

use log_lines::Line;
use log_text::Piece;
use pipes::window;
use pipes::window::Window;
use std::fs::File;

// What stands next, beside what is due there: a line, or nothing. Right: that line, and with its newline it has so many bytes. Wants: more bytes are wanted to know. Over: nothing stands where nothing should.
#[derive(Clone, Copy)]
pub enum Stands {
    Right(usize),
    Wrong,
    Wants,
    Over,
}

// Wrong: the line number is that of the first wrong line, where this line or nothing should stand; what does stand there is next in the log.
#[derive(Clone, Copy)]
pub enum Verdict {
    Going,
    Accepted,
    Wrong(Option<Line>),
}

// How far a log is found right. `line` is the number of the next line, the first being 1.
#[derive(Clone, Copy)]
pub struct Check {
    pub log: Window,
    pub line: u64,
    pub verdict: Verdict,
}

// Whether the text is that line's. No line has more than 75 bytes.
fn is_line(line: Line, text: &[u8], room: &mut [u8]) -> bool
    requires { length room.old ≡ 75 }
    ensures { result ≡ same_text text.now (text_of line) }
{
    match log_lines::write_line(line, room) {
        None => false,
        Some(n) => log_text::same_text(text, &room[..n]),
    }
}

fn same_line(line: Line, text: &[u8]) -> bool
    ensures { result ≡ same_text text.now (text_of line) }
{
    is_line(line, text, &mut [0; 75])
}

fn right_if(same: bool, n: usize) -> Stands
    ensures { result ≡ pick same (Stands.Right n) Stands.Wrong }
{
    if same {
        return Stands::Right(n);
    }
    Stands::Wrong
}

fn hold_line(line: Line, bytes: &[u8], ended: bool) -> Stands
    ensures { result ≡ held (Some line) bytes.now ended }
{
    match log_text::cut(bytes, ended) {
        Piece::Line(n) => right_if(same_line(line, &bytes[..n]), n + 1),
        Piece::Last(n) => right_if(same_line(line, &bytes[..n]), n),
        Piece::Long => Stands::Wrong,
        Piece::Wants => Stands::Wants,
        Piece::Over => Stands::Wrong,
    }
}

fn hold_end(bytes: &[u8], ended: bool) -> Stands
    ensures { result ≡ held None bytes.now ended }
{
    match log_text::cut(bytes, ended) {
        Piece::Line(_n) => Stands::Wrong,
        Piece::Last(_n) => Stands::Wrong,
        Piece::Long => Stands::Wrong,
        Piece::Wants => Stands::Wants,
        Piece::Over => Stands::Over,
    }
}

// What stands next among the bytes at hand, beside what should; `ended` if none come behind them.
pub fn hold(due: Option<Line>, bytes: &[u8], ended: bool) -> Stands
    ensures { result ≡ held due bytes.now ended }
{
    match due {
        Some(line) => hold_line(line, bytes, ended),
        None => hold_end(bytes, ended),
    }
}

// The same of a window's bytes.
fn look(log: Window, due: Option<Line>, room: &[u8]) -> Stands
    requires { (Within log) × (length room.now ≡ 65536) }
    ensures { result ≡ seen due log room.now }
{
    hold(due, &room[log.at..log.end], window::ended(log))
}

fn wants(stands: Stands) -> bool
    ensures { result ≡ wanting stands }
{
    matches!(stands, Stands::Wants)
}

// A window, and what stands next in it.
#[derive(Clone, Copy)]
pub struct Found {
    pub log: Window,
    pub stands: Stands,
}

// Reads on until what stands next is known: no index is counted, so a `for` would be no plainer.
fn seek(log: Window, due: Option<Line>, from: Option<&File>, room: &mut [u8]) -> Found
    requires { (Within log) × (length room.old ≡ 65536) }
    ensures { (Sought due log room.old result.log room.new result.stands) × (wanting result.stands ≡ false) }
{
    let mut at = log;
    let mut stands = look(at, due, room);
    while wants(stands) {
        at = window::refill(at, from, room);
        stands = look(at, due, room);
    }
    Found { log: at, stands }
}

// The log goes on behind the line, was found whole, or is wrong here.
fn after(check: Check, due: Option<Line>, log: Window, stands: Stands) -> Check
    requires { Within log }
    ensures { Goes stands check due log result }
{
    match stands {
        Stands::Right(n) => Check {
            log: window::past(log, n),
            line: check.line.saturating_add(1),
            verdict: Verdict::Going,
        },
        Stands::Wrong => Check {
            log,
            line: check.line,
            verdict: Verdict::Wrong(due),
        },
        Stands::Wants => check,
        Stands::Over => Check {
            log,
            line: check.line,
            verdict: Verdict::Accepted,
        },
    }
}

// What should stand next in the log, which is read on from the file, is held against what does.
pub fn hold_next(check: Check, due: Option<Line>, from: Option<&File>, room: &mut [u8]) -> Check
    requires { (Within check.log) × (length room.old ≡ 65536) }
    ensures { Held check due room.old result room.new }
{
    let found = seek(check.log, due, from, room);
    after(check, due, found.log, found.stands)
}
