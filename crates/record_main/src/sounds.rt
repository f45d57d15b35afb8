// A sound file, opened and judged.
use super::words;
use pipes::{named, rooms};
use std::fs::File;
use std::io::Stderr;
use wav::Sound;

// The channel of a sound file that a side is made of. The first is 0.
#[derive(Drop)]
pub struct Source {
    pub file: File,
    pub channel: u16,
    pub sound: Sound,
}

// The channel that was asked for, counted from 1; 0 stands for the only one.
fn chosen(channels: u16, asked: u64) -> Option<u16> {
    if asked == 0 {
        return (channels == 1).then_some(0);
    }
    let channel = u16::try_from(asked - 1).ok()?;
    (channel < channels).then_some(channel)
}

fn taken(err: Stderr, name: &[u8], file: File, sound: Sound, asked: u64) -> Option<Source> {
    let channels = sound.channels;
    let Some(channel) = chosen(channels, asked) else {
        words::refuse_channel(err, name, channels, asked);
        return None;
    };
    Some(Source {
        file,
        channel,
        sound,
    })
}

// Reads the head and has it judged.
fn judged(err: Stderr, name: &[u8], file: File, length: u64, asked: u64) -> Option<Source> {
    let mut head = rooms::large();
    let n = rooms::fill(Some(&file), &mut head);
    if (n as u64) < length.min(65536) {
        words::tell(err, name, b"it could not be read to its end");
        return None;
    }
    match wav::open(&head[..n], length) {
        Ok(sound) => taken(err, name, file, sound, asked),
        Err(reason) => {
            words::refuse(err, name, reason);
            None
        }
    }
}

fn measured(err: Stderr, name: &[u8], file: File, length: u64, asked: u64) -> Option<Source> {
    match named::go_to(&file, 0) {
        Ok(()) => judged(err, name, file, length, asked),
        Err(why) => {
            named::fail(err, b"record", name, why);
            None
        }
    }
}

// Opens a sound file, or says why not.
pub fn open(rt: HostRuntime, name: &[u8], asked: u64) -> Option<Source> {
    let Some(file) = named::open(rt, b"record", name) else {
        return None;
    };
    match named::length_of(&file) {
        Ok(length) => measured(rt.stderr(), name, file, length, asked),
        Err(_) => {
            words::tell(rt.stderr(), name, b"it must be a file and no pipe");
            None
        }
    }
}
