// The fine stage's peak rule: decides whether the host's correlation has a peak that stands out, and which delay it means.
// The state goes in by value and comes back by value; the correlation is lent. The public call has no `requires`: a bad call is refused by number and
// hands back the state that it was given. Its contract is one equation with a definition of specs/Peak.antt.
#![tactic(auto)]

ghost use Rattle.std.specs.Prelude.{◌≡◌, ◌<◌, ◌≤◌, length};
ghost use Rattle.answers.specs.Numbers.{limit};
ghost use Rattle.fine_peak.specs.Peak as Rule;
ghost use Rattle.fine_peak.specs.Peak.{tie, heights_of, ratio_of, recorded, lock_of, ruled, peak_refusal, searched};

use fine::{Fine, Lengths, Positions, Scans};
use units::Samples;

// A peak must reach this many times the mean.
const CONFIDENCE_THRESHOLD: f64 = 10.0;

// A candidate: its delay, its peak's positions in the correlation, and the peak's ratio to the mean.
#[derive(Clone, Copy)]
pub struct Lock {
    pub delay: Samples,
    pub peak_at: Positions,
    pub ratio: f64,
}

// The answer of a search: it has the peak's positions, whether or not there is a candidate. A refusal carries its number (SPECIFICATION 3).
#[derive(Clone, Copy)]
pub enum PeakAnswer {
    Refused(u8),
    NoCandidate(Positions),
    Candidate(Lock),
}

// The state that comes back, with the answer.
#[derive(Clone, Copy)]
pub struct Searched {
    pub fine: Fine,
    pub answer: PeakAnswer,
}

// The greatest height of a correlation, and its positions.
#[derive(Clone, Copy)]
pub struct Crest {
    pub places: Positions,
    pub value: f64,
}

// The crest of a correlation, and the total of all heights.
#[derive(Clone, Copy)]
pub struct Heights {
    pub crest: Crest,
    pub total: f64,
}

impl Lock {
    // How many samples a delay is backed off from the peak, since an echo path rises into it.
    pub const MARGIN_SAMPLES: u64 = 16;
}

// Compares the crest found so far with the next height, at k. A greater one takes its place; an equal one is its new last position. Most heights are
// below the crest, and one test settles those.
fn met(crest: Crest, k: u64, height: f64) -> Crest
    ensures { result ≡ tie crest k height }
{
    let places = crest.places;
    if height >= crest.value {
        if height > crest.value {
            return Crest {
                places: Positions { first: k, last: k },
                value: height,
            };
        }
        return Crest {
            places: Positions {
                first: places.first,
                last: k,
            },
            value: crest.value,
        };
    }
    crest
}

// Finds the heights of the first n entries.
fn survey(correlation: &[f32], n: usize) -> Heights
    requires { n ≤ length correlation.now }
    ensures { result ≡ heights_of correlation.now n }
{
    let mut crest = Crest {
        places: Positions { first: 0, last: 0 },
        value: 0.0,
    };
    let mut total = 0.0;
    for (k, &entry) in correlation[..n].iter().enumerate() {
        let height = floats::magnitude(f64::from(entry));
        total += height;
        crest = met(crest, k as u64, height);
    }
    Heights { crest, total }
}

fn ratio(crest: Crest, mean: f64) -> f64
    ensures { result ≡ ratio_of crest mean }
{
    if mean > 0.0 {
        return crest.value / mean;
    }
    0.0
}

fn weak(crest: Crest, mean: f64) -> bool
    ensures { result ≡ Rule.weak crest mean }
{
    if mean <= 0.0 {
        return true;
    }
    crest.value < CONFIDENCE_THRESHOLD * mean
}

fn peak_refusal(fine: Fine, correlation: &[f32]) -> u8
    ensures { result ≡ peak_refusal fine correlation.now }
{
    let due = Lengths::of(fine.lengths.span);
    let entries = fine.lengths.span as usize + 1;
    let earlier = fine.first_refusals(due, entries <= correlation.len());
    if earlier != 0 {
        return earlier;
    }
    if !folds::all_finite(&correlation[..entries]) {
        return answers::NOT_FINITE;
    }
    0
}

// Records this scan in the state, whether or not there is a candidate.
fn record_scan(fine: Fine, peak_at: Positions, ratio: f64) -> Fine
    ensures { result ≡ recorded fine peak_at ratio }
{
    Fine {
        scans: Scans {
            count: fine.scans.count.saturating_add(1),
            ratio,
            peak_at: Some(peak_at),
            origin: fine.origin,
        },
        ..fine
    }
}

// Makes the lock of a candidate. If heights are equal, it takes the first, which is the longer delay.
fn lock_at(fine: Fine, peak_at: Positions, ratio: f64) -> Lock
    requires { (fine.origin.0 < limit) × (peak_at.first ≤ fine.lengths.span) }
    ensures { result ≡ lock_of fine peak_at ratio }
{
    let to_peak = fine.origin.0 + fine.lengths.span as u64 - peak_at.first;
    Lock {
        delay: Samples(to_peak.saturating_sub(Lock::MARGIN_SAMPLES)),
        peak_at,
        ratio,
    }
}

fn rule(fine: Fine, crest: Crest, mean: f64) -> Searched
    requires { (fine.origin.0 < limit) × (crest.places.first ≤ fine.lengths.span) }
    ensures { result ≡ ruled fine crest mean }
{
    let height = ratio(crest, mean);
    let recorded = record_scan(fine, crest.places, height);
    if weak(crest, mean) {
        return Searched {
            fine: recorded,
            answer: PeakAnswer::NoCandidate(crest.places),
        };
    }
    Searched {
        fine: recorded,
        answer: PeakAnswer::Candidate(lock_at(fine, crest.places, height)),
    }
}

// Searches the host's correlation for a candidate, over entries 0 to span.
pub fn peak(fine: Fine, correlation: &[f32]) -> Searched
    ensures { result ≡ searched fine correlation.now }
{
    let refusal = peak_refusal(fine, correlation);
    if refusal != 0 {
        return Searched {
            fine,
            answer: PeakAnswer::Refused(refusal),
        };
    }
    let entries = fine.lengths.span as usize + 1;
    let seen = survey(correlation, entries);
    let mean = seen.total / entries as f64;
    rule(fine, seen.crest, mean)
}
