// The file of the events: the header, and then one event behind the other.
ghost use Rattle.std.specs.Prelude.{◌≡◌, ◌≤◌, ◌<◌, min, length};

use pipes::reason::Reason;
use pipes::{rooms, told};
use recording::{Form, Header, Used};
use recording_make::Plan;
use std::fs::File;

// So many are written at once.
const MANY: u32 = 4096;

fn least(a: u32, b: u32) -> u32
    ensures { result ≡ min a b }
{
    if a <= b { a } else { b }
}

fn write_header(h: Header, to: &File) -> Result<(), Reason> {
    let bytes = recording_make::header_bytes(h);
    let form = h.form;
    match form {
        Form::Plain => told::write(to, &bytes[..24]),
        Form::Floats => told::write(to, &bytes[..28]),
        Form::Shorts => told::write(to, &bytes[..28]),
    }
}

// Puts an event behind i others.
fn put(entry: &[u8; 16], i: usize, room: &mut [u8])
    requires { (i < 4096) × (length room.old ≡ 65536) }
    ensures { length room.new ≡ 65536 }
{
    let at = 16 * i;
    let end = at + 16;
    room[at..end].copy_from_slice(entry);
}

// Puts the next n events to the start of the room, and gives what is used behind them.
fn fill(p: Plan, used: Used, n: u32, room: &mut [u8]) -> Used
    requires { (n ≤ 4096) × (length room.old ≡ 65536) }
{
    let mut now = used;
    let mut i: u32 = 0;
    while i < n {
        let step = recording_make::next_event(p, now);
        let next = step.next;
        let entry = recording_make::event_bytes(next);
        put(&entry, i as usize, room);
        now = step.used;
        i += 1;
    }
    now
}

// Writes all events.
fn write_all(p: Plan, to: &File, room: &mut [u8]) -> Result<(), Reason>
    requires { length room.old ≡ 65536 }
{
    let h = p.header;
    let mut used = Used { far: 0, near: 0 };
    let mut left = h.events;
    while 0 < left {
        let n = least(left, MANY);
        used = fill(p, used, n, room);
        let end = 16 * n as usize;
        told::write(to, &room[..end])?;
        left -= n;
    }
    Ok(())
}

// Writes header and events, or tells why that was not done.
pub fn write(p: Plan, to: &File) -> Result<(), Reason> {
    let h = p.header;
    write_header(h, to)?;
    let mut room = rooms::large();
    write_all(p, to, &mut room)
}
