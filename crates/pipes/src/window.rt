// The bytes of an input that are at hand.
ghost use Rattle.std.specs.Prelude.{◌≡◌, ◌+◌, ◌-◌, ◌^◌, ◌≤◌, ◌<◌, min, length, take, IfOk};
ghost use Rattle.pipes.specs.Window.{Within, at_hand, over, Grown};

use crate::reason;
use crate::reason::Reason;
use std::fs::File;
use std::io::Read;

// Those from `at` to `end` of a room of 65,536 bytes that the caller lends. At most `left` more may be read: 0 once the input has ended. After a failed call nothing more may be asked; `failed` is then why: of a window that failed with no call of the system, that none has.
#[derive(Clone, Copy)]
pub struct Window {
    pub at: usize,
    pub end: usize,
    pub left: u64,
    pub failed: Option<Reason>,
}

// Nothing is at hand, and at most so many bytes may be read.
pub fn fresh(most: u64) -> Window
    ensures { (Within result) × (result.left ≡ most) }
{
    Window {
        at: 0,
        end: 0,
        left: most,
        failed: None,
    }
}

// A window that has failed before any read, and why.
pub fn unreadable(why: Reason) -> Window
    ensures { (Within result) × (result.left ≡ 0) }
{
    Window {
        at: 0,
        end: 0,
        left: 0,
        failed: Some(why),
    }
}

// From here on so many bytes may be read behind those at hand.
pub fn allow(w: Window, most: u64) -> Window
    requires { Within w }
    ensures { (Within result) × (result.left ≡ most) }
{
    Window { left: most, ..w }
}

// No byte comes behind those at hand.
pub fn ended(w: Window) -> bool
    ensures { result ≡ over w }
{
    w.left == 0
}

// Nothing more is to be read.
fn stopped(w: Window) -> Window
    ensures { (result.at ≡ w.at) × (result.end ≡ w.end) × (result.left ≡ 0) }
{
    Window { left: 0, ..w }
}

// The window fails where no call of the system has, unless one had before.
fn failing(w: Window) -> Window
    ensures { (result.at ≡ w.at) × (result.end ≡ w.end) × (result.left ≡ 0) }
{
    Window {
        failed: w.failed.or(Some(reason::none())),
        ..stopped(w)
    }
}

// The first n bytes at hand are used. Where there are not so many, all of these are, and the window fails.
pub fn past(w: Window, n: usize) -> Window
    requires { Within w }
    ensures { (Within result) × (result.left ≤ w.left) × (result.end ≡ w.end) × (result.at ≡ w.at + min n (w.end - w.at)) }
{
    if w.end - w.at < n {
        return Window {
            at: w.end,
            ..failing(w)
        };
    }
    Window { at: w.at + n, ..w }
}

// One read of the file, behind the bytes at hand, which move to the front of the room first. It reads no more than is left, and leaves nothing where the input has ended. The window
// fails where the read does, where nothing is left, and where the room is full.
pub fn refill(w: Window, from: Option<&File>, room: &mut [u8]) -> Window
    requires { (Within w) × (length room.old ≡ 65536) }
    ensures { Grown w room.old result room.new }
{
    let front = to_front(w, room);
    let to = front.end + least(room.len() - front.end, front.left);
    read_to(front, from, room, to)
}

// Reads until nothing is left: all that is allowed has come, the input has ended, or a read has failed.
pub fn read_all(w: Window, from: Option<&File>, room: &mut [u8]) -> Window
    requires { (Within w) × (length room.old ≡ 65536) }
    ensures { Within result }
{
    let mut next = w;
    while !ended(next) {
        next = refill(next, from, room);
    }
    next
}

// The bytes at hand move to the front of the room.
fn to_front(w: Window, room: &mut [u8]) -> Window
    requires { (Within w) × (length room.old ≡ 65536) }
    ensures { (result.at ≡ 0) × (result.left ≡ w.left) × (Within result) × (at_hand result room.new ≡ at_hand w room.old) }
{
    room.copy_within(w.at..w.end, 0);
    Window {
        at: 0,
        end: w.end - w.at,
        ..w
    }
}

fn least(a: usize, b: u64) -> usize
    ensures { (result ≤ a) × (result ≤ b) }
{
    (a as u64).min(b) as usize
}

// One read into the room between `from` and `to`: how many bytes came, none where the input has ended, or why it failed. Of no file it fails.
fn read_between(
    input: Option<&File>,
    room: &mut [u8],
    from: usize,
    to: usize,
) -> Result<usize, Reason>
    requires { (from ≤ to) × (to ≤ length room.old) }
    ensures { (IfOk result (λ count. count ≤ to - from)) × (take from room.new ≡ take from room.old) }
{
    let Some(mut file) = input else {
        return Err(reason::no_file());
    };
    file.read(&mut room[from..to]).map_err(|e| reason::of(&e))
}

// The same behind the bytes at hand of a window that stands at the front.
fn read_to(w: Window, input: Option<&File>, room: &mut [u8], to: usize) -> Window
    requires { (Within w) × (length room.old ≡ 65536) × (w.at ≡ 0) × (w.end ≤ to) × (to ≤ length room.old) × (to ≤ w.end + w.left) }
    ensures { Grown w room.old result room.new }
{
    let from = w.end;
    if from == to {
        return failing(w);
    }
    match read_between(input, room, from, to) {
        Err(why) => Window {
            failed: Some(why),
            ..stopped(w)
        },
        Ok(0) => stopped(w),
        Ok(count) => Window {
            end: w.end + count,
            left: w.left - count as u64,
            ..w
        },
    }
}
