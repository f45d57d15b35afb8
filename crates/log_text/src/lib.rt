// A log as a list of lines: whether two are the same, and the next one among the bytes at hand.
#![tactic(auto)]

ghost use Rattle.std.specs.Prelude.{◌≡◌, ◌==◌, ◌+◌, ◌≤◌, length, position};
ghost use Rattle.log_lines.specs.Steps.{Put};
ghost use Rattle.log_text.specs.Cut.{first_newline, cut_of};
ghost use Rattle.log_text.specs.Shown.{shown_text};
ghost use Rattle.log_text.specs.Text.{same_text};

// Whether two texts are the same, byte for byte.
pub fn same_text(a: &[u8], b: &[u8]) -> bool
    ensures { result ≡ same_text a.now b.now }
{
    check::same(a, b)
}

// A line of so many bytes, a newline behind it; the last line, none behind it; a line longer than any of a log; more bytes are wanted; no line is left.
#[derive(Clone, Copy)]
pub enum Piece {
    Line(usize),
    Last(usize),
    Long,
    Wants,
    Over,
}

fn newline_in(bytes: &[u8]) -> Option<usize>
    ensures { result ≡ position (λ byte. byte == 10) bytes.now }
{
    bytes.iter().position(|byte| *byte == b'\n')
}

// The place of the first newline, or the length where there is none.
fn first_newline(bytes: &[u8]) -> usize
    ensures { result ≡ first_newline bytes.now }
{
    newline_in(bytes).unwrap_or(bytes.len())
}

// The next line among the bytes at hand; `ended` if none come behind them.
pub fn cut(bytes: &[u8], ended: bool) -> Piece
    ensures { result ≡ cut_of bytes.now ended }
{
    let n = first_newline(bytes);
    if 75 < n {
        return Piece::Long;
    }
    if n < bytes.len() {
        return Piece::Line(n);
    }
    if !ended {
        return Piece::Wants;
    }
    if n == 0 {
        return Piece::Over;
    }
    Piece::Last(n)
}

// Writes a text into out from at on, as it is shown to a reader: one longer than any line of a log is cut short. Answers the place after it.
pub fn put_shown(out: &mut [u8], at: usize, text: &[u8]) -> usize
    requires { at + 79 ≤ length out.old }
    ensures { Put out.old at (shown_text text.now) out.new result }
{
    if text.len() <= 75 {
        let end = log_lines::put(out, at, text);
        return log_lines::put(out, end, b"\n");
    }
    let next = log_lines::put(out, at, &text[..75]);
    log_lines::put(out, next, b" ..\n")
}
