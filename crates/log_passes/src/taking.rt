// The next line of one log, from the bytes at hand.
ghost use Rattle.std.specs.Prelude.{◌≡◌};
ghost use Rattle.log_passes.specs.Taking.{Inside, taken_of, taken_in};

use log_text::Piece;

// What one log gives: the next line, of so many bytes, with which so many are used; nothing, for it is over; that more bytes are wanted; a line longer than any of a log.
#[derive(Clone, Copy)]
pub enum Taken {
    Text(usize, usize),
    Nothing,
    Wants,
    Long,
}

// A line and how many bytes are used with it: its newline too, where it has one.
pub fn line_of(bytes: &[u8], ended: bool) -> Taken
    ensures { (result ≡ taken_in bytes.now ended) × Inside bytes.now result }
{
    match log_text::cut(bytes, ended) {
        Piece::Line(n) => Taken::Text(n, n + 1),
        Piece::Last(n) => Taken::Text(n, n),
        Piece::Long => Taken::Long,
        Piece::Wants => Taken::Wants,
        Piece::Over => Taken::Nothing,
    }
}
