// Reads a WAVE file: what its head tells, and the samples of one channel out of its frames.
#![tactic(auto)]

ghost use Rattle.std.specs.Prelude.{◌≡◌, ◌+◌, ◌*◌, ◌≤◌, ◌<◌, eqb, ◌++◌, length, drop};
ghost use Rattle.answers.specs.Pick.{pick};
ghost use Rattle.wav.specs.Riff;
ghost use Rattle.wav.specs.Riff.{head_length, found_at, size_at, chunks_of};
ghost use Rattle.wav.specs.Wave;
ghost use Rattle.wav.specs.Wave.{width_of, frame_of, format_with, names_tag, sound_of};
ghost use Rattle.wav.specs.Channel.{channel_bytes, taken_count, taken};
ghost use Rattle.wav.specs.Steps.{Reachable};

use recording::{u16_at, u32_at};

// Where the chunks of the format and of the samples begin.
#[derive(Clone, Copy)]
pub struct Places {
    pub format: usize,
    pub samples: usize,
}

// What a sample is: a signed number of 16 bits, or a float of 32.
#[derive(Clone, Copy)]
pub enum Kind {
    Short,
    Single,
}

// What the chunk of the format says.
#[derive(Clone, Copy)]
pub struct Format {
    pub tag: u16,
    pub channels: u16,
    pub rate: u32,
    pub align: u16,
    pub bits: u16,
}

// The samples are `size` bytes from byte `at` on; a frame is a sample of each channel.
#[derive(Clone, Copy)]
pub struct Sound {
    pub kind: Kind,
    pub channels: u16,
    pub rate: u32,
    pub at: u64,
    pub size: u32,
    pub frames: u32,
}

// Why a file is refused. OtherFormat: compressed, or of a tag that is not known. OtherFrame: no channels, or the bytes of a frame are not those of its samples.
// NoData: the samples do not begin within the head. Cut: they run past the file's end. NotWhole: the last frame is not whole.
#[derive(Clone, Copy, Debug)]
pub enum Reason {
    NotRiff,
    NotWave,
    NoFormat,
    NoData,
    ShortFormat,
    OtherFormat(u16),
    OtherBits(u16),
    OtherFrame,
    OtherRate(u32),
    Cut,
    NotWhole,
}

// How many bytes of a file are looked at for its chunks.
pub const HEAD: usize = 65536;

const RIFF: u32 = 0x4646_4952;

const WAVE: u32 = 0x4556_4157;

const FORMAT: u32 = 0x2074_6d66;

const DATA: u32 = 0x6174_6164;

// ---- the chunks

fn head_length(head: &[u8]) -> usize
    ensures { result ≡ head_length head.now }
{
    head.len().min(HEAD)
}

fn behind(head: &[u8], at: usize) -> usize
    requires { (at + 8 ≤ length head.now) × (at ≤ 65536) }
    ensures { (result ≡ Riff.behind head.now at) × (result ≤ 8589934592) }
{
    let size = u32_at(head, at + 4) as usize;
    at + 8 + size + size % 2
}

fn format_past(id: u32, at: usize, format: usize) -> usize
    ensures { result ≡ pick (eqb id Riff.format_id) at format }
{
    if id == FORMAT {
        return at;
    }
    format
}

fn found_at(format: usize, samples: usize) -> Result<Places, Reason>
    ensures { result ≡ found_at format samples }
{
    if format == 0 {
        return Err(Reason::NoFormat);
    }
    Ok(Places { format, samples })
}

// Walks from chunk to chunk, up to the samples.
fn chunks_of(head: &[u8]) -> Result<Places, Reason>
    ensures { result ≡ chunks_of head.now }
{
    let end = head_length(head);
    let mut left: u32 = 8192;
    let mut at: usize = 12;
    let mut format: usize = 0;
    while 0 < left {
        if end < at + 8 {
            return Err(Reason::NoData);
        }
        let id = u32_at(head, at);
        if id == DATA {
            return found_at(format, at);
        }
        format = format_past(id, at, format);
        at = behind(head, at);
        left -= 1;
    }
    Err(Reason::NoData)
}

// ---- the format

fn format_with(tag: u16, head: &[u8], at: usize) -> Format
    requires { at + 24 ≤ length head.now }
    ensures { result ≡ format_with tag head.now at }
{
    Format {
        tag,
        channels: u16_at(head, at + 10),
        rate: u32_at(head, at + 12),
        align: u16_at(head, at + 20),
        bits: u16_at(head, at + 22),
    }
}

// Tells whether a sub-format's name is that of a tag.
fn names_tag(head: &[u8], at: usize) -> bool
    requires { at + 48 ≤ length head.now }
    ensures { result ≡ names_tag head.now at }
{
    if u16_at(head, at + 34) != 0 {
        return false;
    }
    if u32_at(head, at + 36) != 0x0010_0000 {
        return false;
    }
    if u32_at(head, at + 40) != 0xaa00_0080 {
        return false;
    }
    u32_at(head, at + 44) == 0x719b_3800
}

fn width_of(kind: Kind) -> u32
    ensures { result ≡ width_of kind }
{
    match kind {
        Kind::Short => 2,
        Kind::Single => 4,
    }
}

// Gives how many bytes a frame of so many channels has.
pub fn frame_of(kind: Kind, channels: u16) -> u32
    ensures { result ≡ frame_of kind channels }
{
    width_of(kind) * channels as u32
}

// Tells whether the bytes of a frame are those of its samples, and there is one.
fn whole_frame(kind: Kind, channels: u16, align: u16) -> bool
    ensures { result ≡ Wave.whole_frame kind channels align }
{
    if channels == 0 {
        return false;
    }
    align as u32 == frame_of(kind, channels)
}

fn sound_of(kind: Kind, f: Format, at: u64, size: u32, length: u64) -> Result<Sound, Reason>
    requires { at ≤ 65536 }
    ensures { result ≡ sound_of kind f at size length }
{
    if f.bits as u32 != 8 * width_of(kind) {
        return Err(Reason::OtherBits(f.bits));
    }
    if !whole_frame(kind, f.channels, f.align) {
        return Err(Reason::OtherFrame);
    }
    if !answers::allowed_rate(f.rate) {
        return Err(Reason::OtherRate(f.rate));
    }
    if length < at + size as u64 {
        return Err(Reason::Cut);
    }
    let align = f.align as u32;
    if size % align != 0 {
        return Err(Reason::NotWhole);
    }
    Ok(Sound {
        kind,
        channels: f.channels,
        rate: f.rate,
        at,
        size,
        frames: size / align,
    })
}

fn judged(f: Format, at: u64, size: u32, length: u64) -> Result<Sound, Reason>
    requires { at ≤ 65536 }
    ensures { result ≡ Wave.judged f at size length }
{
    if f.tag == 1 {
        return sound_of(Kind::Short, f, at, size, length);
    }
    if f.tag == 3 {
        return sound_of(Kind::Single, f, at, size, length);
    }
    Err(Reason::OtherFormat(f.tag))
}

fn described(head: &[u8], format: usize, samples: usize, length: u64) -> Result<Sound, Reason>
    requires { (format + 8 + size_at head.now format ≤ samples) × (samples + 8 ≤ head_length head.now) }
    ensures { result ≡ Wave.described head.now format samples length }
{
    let has = u32_at(head, format + 4);
    if has < 16 {
        return Err(Reason::ShortFormat);
    }
    let at = samples as u64 + 8;
    let size = u32_at(head, samples + 4);
    let tag = u16_at(head, format + 8);
    if tag != 65534 {
        return judged(format_with(tag, head, format), at, size, length);
    }
    if has < 40 {
        return Err(Reason::ShortFormat);
    }
    if !names_tag(head, format) {
        return Err(Reason::OtherFormat(65534));
    }
    let sub = u16_at(head, format + 32);
    judged(format_with(sub, head, format), at, size, length)
}

// Opens a file of so many bytes by its head.
pub fn open(head: &[u8], length: u64) -> Result<Sound, Reason>
    ensures { result ≡ Wave.opened_wave head.now length }
{
    if head_length(head) < 12 {
        return Err(Reason::NotRiff);
    }
    if u32_at(head, 0) != RIFF {
        return Err(Reason::NotRiff);
    }
    if u32_at(head, 8) != WAVE {
        return Err(Reason::NotWave);
    }
    let places = chunks_of(head)?;
    described(head, places.format, places.samples, length)
}

// ---- one channel

// Copies the first n bytes of a channel to the start of out.
fn copy_channel(width: usize, frame: usize, before: usize, n: usize, frames: &[u8], out: &mut [u8])
    requires { Reachable width frame before n (length frames.now) (length out.old) }
    ensures { out.new ≡ channel_bytes width frame before frames.now n ++ drop n out.old }
{
    let mut i = 0;
    while i < n {
        out[i] = frames[i / width * frame + before + i % width];
        i += 1;
    }
}

// Fills out from its start with the samples that one channel has in the frames at hand, and answers how many. The first channel is 0.
pub fn take_channel(kind: Kind, channels: u16, channel: u16, frames: &[u8], out: &mut [u8]) -> usize
    ensures { (result ≡ taken_count kind channels channel frames.now out.old) × (out.new ≡ taken kind channels channel frames.now out.old) }
{
    if channels <= channel {
        return 0;
    }
    let width = width_of(kind) as usize;
    let frame = frame_of(kind, channels) as usize;
    let n = (frames.len() / frame).min(out.len() / width);
    copy_channel(
        width,
        frame,
        width * channel as usize,
        width * n,
        frames,
        out,
    );
    n
}
