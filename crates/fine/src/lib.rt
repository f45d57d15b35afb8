// The fine stage's state: making, restart, relocation, reset and reports. The crates above have the gate on near frames and the peak rule.
// The state goes in by value and comes back by value. No call has a `requires`: a bad call is refused by number and hands back the state that it was given.
// Each contract is one equation with a definition of specs/.
#![tactic(auto)]

ghost use Rattle.std.specs.Prelude.{◌≡◌, ◌≤◌};
ghost use Rattle.fine.specs.State.{least_power, transform_of, lengths_of, new_with, with_frames, keeps_rules, first_refusals};
ghost use Rattle.fine.specs.Calls.{changed, made, state_refusal, restarted_at, restarted, relocate_refusal, relocated, was_reset, samples_reported, frame_len, window_len, max_delay, window_back_off, search_range, frames_of, skipped_of, last_scan_ratio, last_scan_peak_at, last_scan_origin, scans_of};

use answers::{Change, Count};
use units::Samples;

// The span, and what follows from it: the transform length and the near frame's length. All are in samples.
#[derive(Clone, Copy, PartialEq, Eq)]
pub struct Lengths {
    pub span: u32,
    pub transform: u64,
    pub frame: u64,
}

// The length of the near frame under way, whether a frame is retained, how many frames were taken at this origin, and how many were skipped in all.
#[derive(Clone, Copy)]
pub struct Frames {
    pub len: u64,
    pub retained: bool,
    pub taken: u32,
    pub skipped: u32,
}

// The first and the last position of a scan's greatest height. They differ if it is a tie.
#[derive(Clone, Copy)]
pub struct Positions {
    pub first: u64,
    pub last: u64,
}

// How many scans there were, and the last one's ratio of peak to mean, its peak's position, and its origin.
#[derive(Clone, Copy)]
pub struct Scans {
    pub count: u64,
    pub ratio: f64,
    pub peak_at: Option<Positions>,
    pub origin: Samples,
}

#[derive(Clone, Copy)]
pub struct Fine {
    pub lengths: Lengths,
    pub origin: Samples,
    pub frames: Frames,
    pub scans: Scans,
}

// A range of delays that includes both ends.
#[derive(Clone, Copy)]
pub struct Range {
    pub first: Samples,
    pub last: Samples,
}

// ---- answers. A refusal carries its number (SPECIFICATION 3).

// The answer of a report that is not a count.
#[derive(Clone, Copy)]
pub enum SamplesReport {
    Refused(u8),
    Is(Samples),
}

#[derive(Clone, Copy)]
pub enum RangeReport {
    Refused(u8),
    Is(Range),
}

#[derive(Clone, Copy)]
pub enum RatioReport {
    Refused(u8),
    Is(f64),
}

#[derive(Clone, Copy)]
pub enum PositionReport {
    Refused(u8),
    Is(Option<Positions>),
}

// ---- the state that comes back, with the answer

#[derive(Clone, Copy)]
pub struct Changed {
    pub fine: Fine,
    pub answer: Change,
}

// ---- what follows from the span

// The shortest and the longest transform.
const MIN_FFT_LEN: u64 = 256;

const MAX_FFT_LEN: u64 = 65536;

fn least_power(n: u64) -> u64
    ensures { (result ≡ least_power n) × (result ≤ 65536) }
{
    n.min(MAX_FFT_LEN).next_power_of_two()
}

fn transform_len(span: u32) -> u64
    ensures { result ≡ transform_of span }
{
    least_power(2 * span as u64).max(MIN_FFT_LEN)
}

impl Lengths {
    pub fn of(span: u32) -> Lengths
        ensures { result ≡ lengths_of span }
    {
        let transform = transform_len(span);
        Lengths {
            span,
            transform,
            frame: transform.saturating_sub(span as u64),
        }
    }
}

impl SamplesReport {
    fn of(refusal: u8, n: Samples) -> SamplesReport
        ensures { result ≡ samples_reported refusal n }
    {
        if refusal != 0 {
            return SamplesReport::Refused(refusal);
        }
        SamplesReport::Is(n)
    }
}

impl Fine {
    // Makes a new state with these lengths.
    fn new_with(lengths: Lengths) -> Fine
        ensures { result ≡ new_with lengths }
    {
        Fine {
            lengths,
            origin: Samples(0),
            frames: Frames {
                len: 0,
                retained: false,
                taken: 0,
                skipped: 0,
            },
            scans: Scans {
                count: 0,
                ratio: 0.0,
                peak_at: None,
                origin: Samples(0),
            },
        }
    }

    // Answers a call that changes this state to `next`; if it is refused, hands this state back.
    fn changed(self, refusal: u8, next: Fine) -> Changed
        ensures { result ≡ changed refusal self next }
    {
        if refusal != 0 {
            return Changed {
                fine: self,
                answer: Change::Refused(refusal),
            };
        }
        Changed {
            fine: next,
            answer: Change::Done,
        }
    }

    pub fn with_frames(self, frames: Frames) -> Fine
        ensures { result ≡ with_frames self frames }
    {
        Fine { frames, ..self }
    }

    // ---- refusals, 0 for none

    fn keeps_rules(self, due: Lengths) -> bool
        requires { due ≡ lengths_of self.lengths.span }
        ensures { result ≡ keeps_rules self }
    {
        self.lengths == due
            && self.origin.0 < answers::LIMIT
            && self.frames.len <= self.lengths.frame
    }

    // Gives refusals 1, 2 and 3. `due` is what the span gives; `fitting` says whether each lent buffer has its length.
    pub fn first_refusals(self, due: Lengths, fitting: bool) -> u8
        requires { due ≡ lengths_of self.lengths.span }
        ensures { result ≡ first_refusals self fitting }
    {
        if !answers::allowed_span(self.lengths.span) {
            return answers::OUTSIDE_TABLE;
        }
        if !fitting {
            return answers::WRONG_LENGTH;
        }
        if !self.keeps_rules(due) {
            return answers::BROKEN_STATE;
        }
        0
    }

    fn refusal(self) -> u8
        ensures { result ≡ state_refusal self }
    {
        self.first_refusals(Lengths::of(self.lengths.span), true)
    }

    // ---- making, restart, relocation, reset

    // Makes a state for delays of `span` samples from the origin on.
    pub fn new(span: u32) -> Changed
        ensures { result ≡ made span }
    {
        if !answers::allowed_span(span) {
            return Changed {
                fine: Fine::new_with(Lengths::of(1)),
                answer: Change::Refused(answers::OUTSIDE_TABLE),
            };
        }
        Changed {
            fine: Fine::new_with(Lengths::of(span)),
            answer: Change::Done,
        }
    }

    fn restarted_at(self, origin: Samples) -> Fine
        ensures { result ≡ restarted_at self origin }
    {
        Fine {
            origin,
            frames: Frames {
                len: 0,
                taken: 0,
                ..self.frames
            },
            ..self
        }
    }

    // Drops the near frame under way and sets the count of frames taken to 0.
    pub fn restart(self) -> Changed
        ensures { result ≡ restarted self }
    {
        self.changed(self.refusal(), self.restarted_at(self.origin))
    }

    fn relocate_refusal(self, origin: Samples) -> u8
        ensures { result ≡ relocate_refusal self origin }
    {
        let earlier = self.refusal();
        if earlier != 0 {
            return earlier;
        }
        if origin.0 >= answers::LIMIT {
            return answers::TOO_LARGE;
        }
        0
    }

    // Moves the search to another origin.
    pub fn relocate(self, origin: Samples) -> Changed
        ensures { result ≡ relocated self origin }
    {
        self.changed(self.relocate_refusal(origin), self.restarted_at(origin))
    }

    // Resets the state to what it was when it was made.
    pub fn reset(self) -> Changed
        ensures { result ≡ was_reset self }
    {
        self.changed(self.refusal(), Fine::new_with(self.lengths))
    }

    // ---- reports

    // Reports how many near samples make a frame.
    pub fn frame_len(self) -> SamplesReport
        ensures { result ≡ frame_len self }
    {
        SamplesReport::of(self.refusal(), Samples(self.lengths.frame))
    }

    // Reports how many far samples one frame needs.
    pub fn window_len(self) -> SamplesReport
        ensures { result ≡ window_len self }
    {
        let refusal = self.refusal();
        if refusal != 0 {
            return SamplesReport::Refused(refusal);
        }
        SamplesReport::Is(Samples(self.lengths.frame + self.lengths.span as u64))
    }

    // Reports the span.
    pub fn max_delay(self) -> SamplesReport
        ensures { result ≡ max_delay self }
    {
        SamplesReport::of(self.refusal(), Samples(self.lengths.span as u64))
    }

    // Reports how far the far window's start lies before the near frame's start.
    pub fn window_back_off(self) -> SamplesReport
        ensures { result ≡ window_back_off self }
    {
        let refusal = self.refusal();
        if refusal != 0 {
            return SamplesReport::Refused(refusal);
        }
        SamplesReport::Is(Samples(self.origin.0 + self.lengths.span as u64))
    }

    // Reports the delays that are searched.
    pub fn search_range(self) -> RangeReport
        ensures { result ≡ search_range self }
    {
        let refusal = self.refusal();
        if refusal != 0 {
            return RangeReport::Refused(refusal);
        }
        RangeReport::Is(Range {
            first: self.origin,
            last: Samples(self.origin.0 + self.lengths.span as u64),
        })
    }

    // Counts the frames taken at this origin.
    pub fn frames(self) -> Count
        ensures { result ≡ frames_of self }
    {
        Count::of(self.refusal(), self.frames.taken as u64)
    }

    // Counts the frames skipped since the making or the last reset.
    pub fn skipped(self) -> Count
        ensures { result ≡ skipped_of self }
    {
        Count::of(self.refusal(), self.frames.skipped as u64)
    }

    pub fn last_scan_ratio(self) -> RatioReport
        ensures { result ≡ last_scan_ratio self }
    {
        let refusal = self.refusal();
        if refusal != 0 {
            return RatioReport::Refused(refusal);
        }
        RatioReport::Is(self.scans.ratio)
    }

    pub fn last_scan_peak_at(self) -> PositionReport
        ensures { result ≡ last_scan_peak_at self }
    {
        let refusal = self.refusal();
        if refusal != 0 {
            return PositionReport::Refused(refusal);
        }
        PositionReport::Is(self.scans.peak_at)
    }

    pub fn last_scan_origin(self) -> SamplesReport
        ensures { result ≡ last_scan_origin self }
    {
        SamplesReport::of(self.refusal(), self.scans.origin)
    }

    // Counts the scans since the making or the last reset.
    pub fn scans(self) -> Count
        ensures { result ≡ scans_of self }
    {
        Count::of(self.refusal(), self.scans.count)
    }
}
