// The samples of one channel, from a sound file into a file of their own.
ghost use Rattle.std.specs.Prelude.{◌≡◌, ◌≤◌, length};

use super::sounds::Source;
use super::words;
use pipes::{named, rooms, told};
use std::fs::File;
use std::io::Stderr;
use wav::Kind;

fn least(a: usize, b: usize) -> usize
    ensures { (result ≤ a) × (result ≤ b) }
{
    if a <= b { a } else { b }
}

// How many bytes so many samples of a channel have, but no more than the room has.
fn bytes_of(kind: Kind, samples: usize) -> usize
    ensures { result ≤ 65536 }
{
    let few = least(samples, 65536);
    match kind {
        Kind::Short => least(2 * few, 65536),
        Kind::Single => least(4 * few, 65536),
    }
}

// As many whole frames as the room has, or what is left: so many bytes.
fn part_of(frame: u32, left: usize) -> usize
    ensures { (result ≤ left) × (result ≤ 65536) }
{
    if frame == 0 {
        return 0;
    }
    let over = 65536 % frame;
    if 65536 < over {
        return 0;
    }
    least(left, (65536 - over) as usize)
}

// Moves the samples of the next n bytes of frames.
fn move_part(
    err: Stderr,
    from: &Source,
    name: &[u8],
    to: &File,
    into: &[u8],
    n: usize,
    frames: &mut [u8],
    room: &mut [u8],
) -> bool
    requires { (n ≤ 65536) × (length frames.old ≡ 65536) × (length room.old ≡ 65536) }
{
    let got = rooms::fill(Some(&from.file), &mut frames[..n]);
    if got < n {
        words::tell(err, name, b"it could not be read to its end");
        return false;
    }
    let sound = from.sound;
    let kind = sound.kind;
    let samples = wav::take_channel(kind, sound.channels, from.channel, &frames[..n], room);
    let bytes = bytes_of(kind, samples);
    match told::write(to, &room[..bytes]) {
        Ok(()) => true,
        Err(why) => {
            named::fail(err, b"record", into, why);
            false
        }
    }
}

// Moves them all.
fn move_all(
    err: Stderr,
    from: &Source,
    name: &[u8],
    to: &File,
    into: &[u8],
    frames: &mut [u8],
    room: &mut [u8],
) -> bool
    requires { (length frames.old ≡ 65536) × (length room.old ≡ 65536) }
{
    let sound = from.sound;
    let kind = sound.kind;
    let frame = wav::frame_of(kind, sound.channels);
    let mut left = sound.size as usize;
    while 0 < left {
        let n = part_of(frame, left);
        if n == 0 {
            return false;
        }
        if !move_part(err, from, name, to, into, n, frames, room) {
            return false;
        }
        left -= n;
    }
    true
}

fn copy_from(err: Stderr, from: &Source, name: &[u8], to: &File, into: &[u8]) -> bool {
    let mut frames = rooms::large();
    let mut room = rooms::large();
    move_all(err, from, name, to, into, &mut frames, &mut room)
}

// Copies the channel from the file of one name into that of the other, and says what went wrong.
pub fn copy(err: Stderr, from: &Source, name: &[u8], to: &File, into: &[u8]) -> bool {
    let sound = from.sound;
    match named::go_to(&from.file, sound.at) {
        Ok(()) => copy_from(err, from, name, to, into),
        Err(why) => {
            named::fail(err, b"record", name, why);
            false
        }
    }
}
