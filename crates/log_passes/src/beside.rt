// Two logs in their order: the first line in which they are not the same.
ghost use Rattle.std.specs.Prelude.{◌≡◌};
ghost use Rattle.log_passes.specs.Taking.{Inside};
ghost use Rattle.log_passes.specs.Beside.{if_more, beside_texts, beside_first, beside_of, beside_in};

use crate::taking;
use crate::taking::Taken;

// Both logs have the same line, and go on behind so many bytes; more bytes of one are wanted; both are over; here they part; a line that is none of a log.
#[derive(Clone, Copy)]
pub enum Ask {
    Goes(usize, usize),
    WantsFirst,
    WantsSecond,
    Same,
    Apart,
    Strange,
}

// The number of the next line, and what is to be done.
#[derive(Clone, Copy)]
pub struct Beside {
    pub place: u64,
    pub ask: Ask,
}

// A line of each.
fn beside_texts(
    place: u64,
    first: &[u8],
    first_used: usize,
    second: &[u8],
    second_used: usize,
) -> Beside
    ensures { result ≡ beside_texts place first.now first_used second.now second_used }
{
    if log_text::same_text(first, second) {
        return Beside {
            place: place.saturating_add(1),
            ask: Ask::Goes(first_used, second_used),
        };
    }
    Beside {
        place,
        ask: Ask::Apart,
    }
}

// A line of the first log, and what the second gives.
fn beside_first(place: u64, first: &[u8], used: usize, second: &[u8], taken: Taken) -> Beside
    requires { Inside second.now taken }
    ensures { result ≡ beside_first place first.now used second.now taken }
{
    match taken {
        Taken::Text(n, second_used) => beside_texts(place, first, used, &second[..n], second_used),
        Taken::Nothing => asked(place, Ask::Apart),
        Taken::Wants => asked(place, Ask::WantsSecond),
        Taken::Long => asked(place, Ask::Strange),
    }
}

fn asked(place: u64, ask: Ask) -> Beside
    ensures { result ≡ record { place = place; ask = ask } }
{
    Beside { place, ask }
}

// The first log is over.
fn beside_end(place: u64, taken: Taken) -> Beside
    ensures { result ≡ record { place = place; ask = if_more taken } }
{
    match taken {
        Taken::Text(_n, _used) => asked(place, Ask::Apart),
        Taken::Nothing => asked(place, Ask::Same),
        Taken::Wants => asked(place, Ask::WantsSecond),
        Taken::Long => asked(place, Ask::Strange),
    }
}

fn beside_of(place: u64, first: &[u8], mine: Taken, second: &[u8], other: Taken) -> Beside
    requires { (Inside first.now mine) × (Inside second.now other) }
    ensures { result ≡ beside_of place first.now mine second.now other }
{
    match mine {
        Taken::Text(n, used) => beside_first(place, &first[..n], used, second, other),
        Taken::Nothing => beside_end(place, other),
        Taken::Wants => asked(place, Ask::WantsFirst),
        Taken::Long => asked(place, Ask::Strange),
    }
}

// The next line of both logs, from the bytes at hand of each; `ended` of a log if none come behind them.
pub fn beside_next(
    place: u64,
    first: &[u8],
    first_ended: bool,
    second: &[u8],
    second_ended: bool,
) -> Beside
    ensures { result ≡ beside_in place first.now first_ended second.now second_ended }
{
    let mine = taking::line_of(first, first_ended);
    let other = taking::line_of(second, second_ended);
    beside_of(place, first, mine, second, other)
}
