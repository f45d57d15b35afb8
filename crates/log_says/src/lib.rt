// The verdict on a log, in words: `accepted`, or three lines with the number of the first wrong line, what stands there and what should.
#![tactic(auto)]

ghost use Rattle.std.specs.Prelude.{◌≡◌, ◌++◌, ◌+◌, ◌≤◌, length};
ghost use Rattle.log_lines.specs.Lines.{text_of};
ghost use Rattle.log_lines.specs.Steps.{Put};
ghost use Rattle.log_text.specs.Apart.{There};
ghost use Rattle.log_says.specs.Says.{place_text, stands_text, should_text};
ghost use Rattle.log_says.specs.Calls.{due_side, side_at, said_text, said, said_out};

use log_hold::Verdict;
use log_lines::Line;
use log_text::Piece;

fn put_place(out: &mut [u8], line: u64) -> usize
    requires { 35 ≤ length out.old }
    ensures { Put out.old 0 (place_text line) out.new result }
{
    let next = log_lines::put_number(out, 0, b"wrong at line ", line);
    log_lines::put(out, next, b"\n")
}

fn put_there(out: &mut [u8], at: usize, text: &[u8]) -> usize
    requires { at + 87 ≤ length out.old }
    ensures { Put out.old at (stands_text (There text.now)) out.new result }
{
    let next = log_lines::put(out, at, b"stands: ");
    log_text::put_shown(out, next, text)
}

// What stands at the front of the bytes at hand; `ended` if none come behind them.
fn put_stands(out: &mut [u8], at: usize, hand: &[u8], ended: bool) -> usize
    requires { at + 87 ≤ length out.old }
    ensures { Put out.old at (stands_text (side_at hand.now ended)) out.new result }
{
    match log_text::cut(hand, ended) {
        Piece::Line(n) => put_there(out, at, &hand[..n]),
        Piece::Last(n) => put_there(out, at, &hand[..n]),
        Piece::Long => put_there(out, at, hand),
        Piece::Wants => put_there(out, at, hand),
        Piece::Over => log_lines::put(out, at, b"stands nothing\n"),
    }
}

fn put_right(out: &mut [u8], at: usize, line: Line) -> usize
    requires { at + 90 ≤ length out.old }
    ensures { Put out.old at (should_text (There (text_of line))) out.new result }
{
    let next = log_lines::put(out, at, b"should stand: ");
    let end = log_lines::put_line_at(out, next, line);
    log_lines::put(out, end, b"\n")
}

fn put_should(out: &mut [u8], at: usize, due: Option<Line>) -> usize
    requires { at + 90 ≤ length out.old }
    ensures { Put out.old at (should_text (due_side due)) out.new result }
{
    match due {
        Some(line) => put_right(out, at, line),
        None => log_lines::put(out, at, b"should stand nothing\n"),
    }
}

fn put_wrong(out: &mut [u8], line: u64, due: Option<Line>, hand: &[u8], ended: bool) -> usize
    requires { 256 ≤ length out.old }
    ensures { Put out.old 0 (place_text line ++ stands_text (side_at hand.now ended) ++ should_text (due_side due)) out.new result }
{
    let a = put_place(out, line);
    let b = put_stands(out, a, hand, ended);
    put_should(out, b, due)
}

fn put_verdict(out: &mut [u8], line: u64, verdict: Verdict, hand: &[u8], ended: bool) -> usize
    requires { 256 ≤ length out.old }
    ensures { Put out.old 0 (said_text line verdict hand.now ended) out.new result }
{
    match verdict {
        Verdict::Going => 0,
        Verdict::Accepted => log_lines::put(out, 0, b"accepted\n"),
        Verdict::Wrong(due) => put_wrong(out, line, due, hand, ended),
    }
}

// Writes the verdict on a log, at the start of out, which must have 256 bytes or more. `line` is the number of the line at whose bytes the log stands, and these are at hand.
pub fn write_verdict(
    line: u64,
    verdict: Verdict,
    hand: &[u8],
    ended: bool,
    out: &mut [u8],
) -> Option<usize>
    ensures { (result ≡ said line verdict hand.now ended out.old) × (out.new ≡ said_out line verdict hand.now ended out.old) }
{
    if out.len() < 256 {
        return None;
    }
    let n = put_verdict(out, line, verdict, hand, ended);
    Some(n)
}
