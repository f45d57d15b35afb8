// What is said of a sound file: one line on standard error, "record: FILE: reason".
use pipes::named;
use std::io::{Print, Stderr};
use wav::Reason;

pub fn begin(err: Stderr, name: &[u8]) {
    named::put(err, b"record: ");
    named::put(err, name);
    named::put(err, b": ");
}

pub fn put(err: Stderr, text: &[u8]) {
    named::put(err, text);
}

pub fn number(err: Stderr, n: u64) {
    let _ = err.print(n);
}

// "record: FILE: text"
pub fn tell(err: Stderr, name: &[u8], text: &[u8]) {
    begin(err, name);
    put(err, text);
    put(err, b"\n");
}

// "record: FILE: text OTHER-FILE"
pub fn beside(err: Stderr, name: &[u8], other: &[u8], text: &[u8]) {
    begin(err, name);
    put(err, text);
    put(err, other);
    put(err, b"\n");
}

// "record: FILE: before N after"
fn count(err: Stderr, name: &[u8], before: &[u8], n: u64, after: &[u8]) {
    begin(err, name);
    put(err, before);
    number(err, n);
    put(err, after);
    put(err, b"\n");
}

fn other_format(err: Stderr, name: &[u8], tag: u16) {
    count(
        err,
        name,
        b"compressed, or of an unknown format: tag ",
        tag as u64,
        b", and only 1 (PCM) and 3 (float) are read",
    );
}

fn other_bits(err: Stderr, name: &[u8], bits: u16) {
    count(
        err,
        name,
        b"samples of ",
        bits as u64,
        b" bits: 16-bit PCM and 32-bit float are read",
    );
}

fn other_rate(err: Stderr, name: &[u8], rate: u32) {
    count(
        err,
        name,
        b"a rate of ",
        rate as u64,
        b" Hz, outside 8000 to 192000",
    );
}

fn no_data(err: Stderr, name: &[u8]) {
    tell(err, name, b"no data chunk in its first 65536 bytes");
}

// Those of the format.
fn refuse_format(err: Stderr, name: &[u8], reason: Reason) {
    match reason {
        Reason::ShortFormat => tell(err, name, b"the fmt chunk is too short"),
        Reason::OtherFormat(tag) => other_format(err, name, tag),
        Reason::OtherBits(bits) => other_bits(err, name, bits),
        Reason::OtherFrame => tell(
            err,
            name,
            b"channels and bytes of a frame do not fit together",
        ),
        Reason::OtherRate(rate) => other_rate(err, name, rate),
        Reason::Cut => tell(err, name, b"cut: the samples run past the file's end"),
        Reason::NotWhole => tell(err, name, b"the last frame is not whole"),
        Reason::NotRiff => {}
        Reason::NotWave => {}
        Reason::NoFormat => {}
        Reason::NoData => {}
    }
}

// Says why a file is refused.
pub fn refuse(err: Stderr, name: &[u8], reason: Reason) {
    match reason {
        Reason::NotRiff => tell(err, name, b"no RIFF file"),
        Reason::NotWave => tell(err, name, b"a RIFF file, but no WAVE"),
        Reason::NoFormat => tell(err, name, b"no fmt chunk before the data"),
        Reason::NoData => no_data(err, name),
        Reason::ShortFormat => refuse_format(err, name, reason),
        Reason::OtherFormat(_) => refuse_format(err, name, reason),
        Reason::OtherBits(_) => refuse_format(err, name, reason),
        Reason::OtherFrame => refuse_format(err, name, reason),
        Reason::OtherRate(_) => refuse_format(err, name, reason),
        Reason::Cut => refuse_format(err, name, reason),
        Reason::NotWhole => refuse_format(err, name, reason),
    }
}

// The file has more channels than one and none was named, or not the one that was.
pub fn refuse_channel(err: Stderr, name: &[u8], channels: u16, asked: u64) {
    begin(err, name);
    number(err, channels as u64);
    if asked == 0 {
        put(err, b" channels: name one\n");
        return;
    }
    put(err, b" channels, and no channel ");
    number(err, asked);
    put(err, b"\n");
}
