// One file of a recording on its way into another: the bytes at hand of the input, and what is held for the output until there is enough of it to be written. Proved: it is safe
// and ends, and the samples of an event are held for the output all or not at all. What the system reads and writes is trusted by trial.
#![tactic(auto)]

ghost use Rattle.std.specs.Prelude.{◌≡◌, true, ◌+◌, ◌≤◌, ◌<◌, length};
ghost use Rattle.pipes.specs.Window.{Within};
ghost use Rattle.convert_side.specs.Side.{Fits};

use pipes::reason::Reason;
use pipes::window::Window;
use pipes::{reason, told, window};
use recording::Form;
use recording_convert::Direction;
use recording_store::Unstored;
use std::fs::File;

// The first `held` bytes of a room are for the output. `good`: every write was done; `reason`: why the last was not.
#[derive(Clone, Copy)]
pub struct Out {
    pub held: usize,
    pub good: bool,
    pub reason: Reason,
}

// The open files of a side. Of one that is not there every read fails, and every write to it.
#[derive(Clone, Copy)]
pub struct Ends<'a> {
    pub from: Option<&'a File>,
    pub to: Option<&'a File>,
}

#[derive(Clone, Copy)]
pub struct Side {
    pub input: Window,
    pub out: Out,
}

// A side, and what became of an event's samples.
#[derive(Clone, Copy)]
pub struct Stored {
    pub side: Side,
    pub storing: Result<usize, Unstored>,
}

pub fn fresh(most: u64) -> Side
    ensures { Fits result }
{
    opening(window::fresh(most))
}

// A side whose input has failed before any read, and why.
pub fn unreadable(why: Reason) -> Side
    ensures { Fits result }
{
    opening(window::unreadable(why))
}

fn opening(input: Window) -> Side
    requires { Within input }
    ensures { Fits result }
{
    Side {
        input,
        out: Out {
            held: 0,
            good: true,
            reason: reason::none(),
        },
    }
}

// ---- the input

fn wants(w: Window, need: usize) -> bool
    requires { Within w }
    ensures { result ≡ true → 0 < w.left }
{
    if need <= w.end - w.at {
        return false;
    }
    0 < w.left
}

// Reads until so many bytes are at hand, or no more come.
fn filled(w: Window, need: usize, from: Option<&File>, room: &mut [u8]) -> Window
    requires { (Within w) × (length room.old ≡ 65536) }
    ensures { Within result }
{
    let mut next = w;
    while wants(next, need) {
        next = window::refill(next, from, room);
    }
    next
}

// The same of a side.
pub fn fill(side: Side, need: usize, from: Option<&File>, room: &mut [u8]) -> Side
    requires { (Fits side) × (length room.old ≡ 65536) }
    ensures { Fits result }
{
    let input = side.input;
    let out = side.out;
    Side {
        input: filled(input, need, from, room),
        out,
    }
}

// So many of the bytes at hand are used.
pub fn past(side: Side, n: usize) -> Side
    requires { Fits side }
    ensures { Fits result }
{
    let input = side.input;
    let out = side.out;
    Side {
        input: window::past(input, n),
        out,
    }
}

// ---- the output

fn written(to: Option<&File>, text: &[u8]) -> Result<(), Reason> {
    match to {
        Some(file) => told::write(file, text),
        None => Err(reason::no_file()),
    }
}

// What is held is written.
pub fn drain(side: Side, to: Option<&File>, room: &[u8]) -> Side
    requires { (Fits side) × (length room.now ≡ 65536) }
    ensures { (Fits result) × (result.out.held ≡ 0) }
{
    let input = side.input;
    let out = side.out;
    let held = out.held;
    let done = written(to, &room[..held]);
    Side {
        input,
        out: Out {
            held: 0,
            good: out.good && done.is_ok(),
            reason: reason::behind(out.reason, done),
        },
    }
}

// Room for so many bytes, and where there is none what is held is written first.
pub fn make_room(side: Side, n: usize, to: Option<&File>, room: &[u8]) -> Side
    requires { (Fits side) × (length room.now ≡ 65536) }
    ensures { Fits result }
{
    let out = side.out;
    if room.len() - out.held < n {
        return drain(side, to, room);
    }
    side
}

// So many more bytes are held. More than there is room for are never said to be: the output would no longer be good.
pub fn holds(side: Side, n: usize) -> Side
    requires { Fits side }
    ensures { Fits result }
{
    let input = side.input;
    let out = side.out;
    let held = out.held;
    if 65536 - held < n {
        return Side {
            input,
            out: Out {
                held,
                good: false,
                reason: out.reason,
            },
        };
    }
    Side {
        input,
        out: Out {
            held: held + n,
            good: out.good,
            reason: out.reason,
        },
    }
}

// ---- the samples of an event

fn store_behind(
    direction: Direction,
    side: Side,
    count: u32,
    from: &[u8],
    to: &mut [u8],
) -> Result<usize, Unstored>
    requires { (Fits side) × (length from.now ≡ 65536) × (length to.old ≡ 65536) }
{
    let input = side.input;
    let out = side.out;
    let at = input.at;
    let end = input.end;
    let held = out.held;
    recording_store::store(direction, &from[at..end], count, &mut to[held..])
}

fn after(side: Side, storing: Result<usize, Unstored>, need: usize) -> Stored
    requires { Fits side }
    ensures { Fits result.side }
{
    match storing {
        Err(_) => Stored { side, storing },
        Ok(n) => Stored {
            side: holds(past(side, need), n),
            storing,
        },
    }
}

// Converts the samples of the next event of this side: they are held for the output, all or none.
pub fn convert(
    direction: Direction,
    form: Form,
    side: Side,
    ends: &Ends<'_>,
    count: u32,
    from: &mut [u8],
    to: &mut [u8],
) -> Stored
    requires { (Fits side) × (length from.old ≡ 65536) × (length to.old ≡ 65536) }
    ensures { Fits result.side }
{
    let need = recording::bytes_of(form, count) as usize;
    let ready = make_room(fill(side, need, ends.from, from), 16384, ends.to, to);
    let storing = store_behind(direction, ready, count, from, to);
    after(ready, storing, need)
}

// ---- an entry, as it stands

fn shorter(a: usize, b: usize) -> usize
    ensures { (result ≤ a) × (result ≤ b) }
{
    if a < b { a } else { b }
}

fn copy(from: &[u8], to: &mut [u8]) {
    let n = shorter(16, shorter(from.len(), to.len()));
    let mut i = 0;
    while i < n {
        to[i] = from[i];
        i += 1;
    }
}

// The 16 bytes of the next entry are held for the output as they stand.
pub fn carry_entry(side: Side, from: &[u8], to: &mut [u8]) -> Side
    requires { (Fits side) × (length from.now ≡ 65536) × (length to.old ≡ 65536) }
    ensures { Fits result }
{
    let input = side.input;
    let out = side.out;
    let at = input.at;
    let end = input.end;
    let held = out.held;
    copy(&from[at..end], &mut to[held..]);
    holds(past(side, 16), 16)
}
