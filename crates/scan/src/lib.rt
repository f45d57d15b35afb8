// The coarse scan: its state and answers. The calls stand in the crates above; what each of them does is defined in specs/.
// One far history, one near frame, one verdict: each is a struct of its own.
#![tactic(auto)]

use answers::Change;
use units::Samples;

// The Rust's constants, by its names. specs/Bins.antt and specs/Scoring.antt say what each is for.
pub const COARSE_FRAME_MS: u32 = 256;

pub const COARSE_MIN_FRAMES: u32 = 4;

pub const COARSE_CONFIDENT_CORR: f64 = 0.25;

pub const COARSE_SIDELOBE_RATIO: f64 = 1.5;

pub const COARSE_PEAK_GUARD_MS: u32 = 30;

pub const COARSE_CEILING_GUARD_MS: u32 = 8;

pub const COARSE_GIVE_UP_FRAMES: u32 = 64;

pub const COARSE_TAIL_DEFICIT_DEN: u64 = 4;

// What follows from the rate and the ceiling. Span, frame and guards are in bins.
#[derive(Clone, Copy)]
pub struct Geometry {
    pub rate: u32,
    pub ceiling: u32,
    pub decimation: u64,
    pub bin_rate: u64,
    pub span: u64,
    pub frame: u64,
    pub ceiling_guard: u64,
    pub peak_guard: u64,
}

// The far history: the next block, its running sum and partial count, and the samples accepted in all.
#[derive(Clone, Copy)]
pub struct Far {
    pub next: u64,
    pub sum: f64,
    pub count: u64,
    pub accepted: u64,
}

// The near frame under way: the bins it has, the running sum and partial count of the next one, the frame's first bin, and the index of the last sample taken.
#[derive(Clone, Copy)]
pub struct Near {
    pub len: u64,
    pub sum: f64,
    pub count: u64,
    pub first: u64,
    pub last: u64,
}

// Where the echo lives: a delay in native samples, and its averaged correlation.
#[derive(Clone, Copy)]
pub struct Region {
    pub delay: Samples,
    pub correlation: f64,
}

#[derive(Clone, Copy)]
pub enum Found {
    Nothing,
    At(Region),
}

// What the frames so far came to: the frames banked into the lag sums and those counted, the last frame's peak, the region if one was found,
// whether a peak stood at the ceiling, and whether the scan has given up.
#[derive(Clone, Copy)]
pub struct Verdict {
    pub banked: u32,
    pub frames: u32,
    pub last: f32,
    pub found: Found,
    pub beyond: bool,
    pub exhausted: bool,
}

#[derive(Clone, Copy)]
pub struct Scan {
    pub geometry: Geometry,
    pub far: Far,
    pub near: Near,
    pub verdict: Verdict,
}

// ---- answers, beside those of crate answers. specs/Told.antt numbers their cases.

// A frame's answer: one case of nine.
#[derive(Clone, Copy)]
pub enum Frame {
    Uncovered,
    Ahead,
    Quiet,
    Flat,
    Banked(f32),
    Weak,
    Ceiling,
    Crowded,
    Region(Region),
}

// Of a near sample: ignored by a finished scan, dropped where no frame goes on with it and it begins none, taken, or taken as the frame's last.
#[derive(Clone, Copy)]
pub enum Taking {
    Refused(u8),
    Ignored,
    Dropped,
    Taken,
    Full,
}

// Of a frame to be scored: its case, and how many products its lag sums took.
#[derive(Clone, Copy)]
pub enum Scoring {
    Refused(u8),
    Frame(Frame, u64),
}

// Of a report that is neither a count nor a flag.
#[derive(Clone, Copy)]
pub enum RegionReport {
    Refused(u8),
    Is(Found),
}

#[derive(Clone, Copy)]
pub enum LevelReport {
    Refused(u8),
    Is(f32),
}

#[derive(Clone, Copy)]
pub enum SamplesReport {
    Refused(u8),
    Is(Samples),
}

// ---- the state that comes back, with the answer

#[derive(Clone, Copy)]
pub struct Changed {
    pub scan: Scan,
    pub answer: Change,
}

#[derive(Clone, Copy)]
pub struct Took {
    pub scan: Scan,
    pub answer: Taking,
}

#[derive(Clone, Copy)]
pub struct Scored {
    pub scan: Scan,
    pub answer: Scoring,
}
