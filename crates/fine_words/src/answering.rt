// Gives what a call answers on the C face (words: Answers): a number, and the values that come with it, which go into a lent list.
ghost use Rattle.std.specs.Prelude.{◌≡◌, length};
ghost use Rattle.answers.specs.Told.{change_told};
ghost use Rattle.words.specs.Words.{one_value};
ghost use Rattle.words.specs.Answers.{number, given};
ghost use Rattle.fine.specs.Told.{samples_told, range_told, ratio_told, place_told, position_told};
ghost use Rattle.fine_gate.specs.Told.{taking_told, gate_told, rescan_told};
ghost use Rattle.fine_peak.specs.Told.{peak_told};
ghost use Rattle.fine_words.specs.Layout.{fine_words};
ghost use Rattle.fine_words.specs.Answers.{range_values, place_values, peak_values, ratio_given, peak_given, changed_words};

use fine::{Changed, PositionReport, Positions, RangeReport, RatioReport, SamplesReport};
use fine_gate::{GateAnswer, RescanAnswer, Taking};
use fine_peak::PeakAnswer;

// How many values a call writes, if it is not one.
pub const RANGE_VALUES: usize = 2;

pub const PLACE_VALUES: usize = 2;

pub const PEAK_VALUES: usize = 4;

pub fn taking_number(answer: Taking) -> u32
    ensures { result ≡ number (taking_told answer) }
{
    match answer {
        Taking::Refused(n) => n as u32,
        Taking::Taken => 16,
        Taking::Full => 17,
    }
}

pub fn gate_number(answer: GateAnswer) -> u32
    ensures { result ≡ number (gate_told answer) }
{
    match answer {
        GateAnswer::Refused(n) => n as u32,
        GateAnswer::Skipped => 16,
        GateAnswer::Silent => 17,
        GateAnswer::First => 18,
        GateAnswer::Later => 19,
    }
}

pub fn rescan_number(answer: RescanAnswer) -> u32
    ensures { result ≡ number (rescan_told answer) }
{
    match answer {
        RescanAnswer::Refused(n) => n as u32,
        RescanAnswer::NothingRetained => 16,
        RescanAnswer::Skipped => 17,
        RescanAnswer::Silent => 18,
        RescanAnswer::Taken => 19,
    }
}

pub fn settle_change(state: &mut [u64], changed: Changed) -> u32
    requires { length state.old ≡ fine_words }
    ensures number { result ≡ number (change_told changed.answer) }
    ensures words { state.new ≡ changed_words state.old changed }
{
    crate::settle(state, words::change_number(changed.answer), changed.fine)
}

// ---- what an answer with values writes

pub fn tell_samples(values: &mut [u64], report: SamplesReport) -> u32
    requires { length values.old ≡ one_value }
    ensures number { result ≡ number (samples_told report) }
    ensures values { values.new ≡ given values.old (samples_told report) }
{
    match report {
        SamplesReport::Refused(n) => n as u32,
        SamplesReport::Is(d) => {
            values[0] = d.0;
            16
        }
    }
}

// Tells a NaN by the pattern that it has in the state.
pub fn tell_ratio(values: &mut [u64], pattern: u64, report: RatioReport) -> u32
    requires { length values.old ≡ one_value }
    ensures number { result ≡ number (ratio_told report) }
    ensures values { values.new ≡ ratio_given values.old pattern report }
{
    match report {
        RatioReport::Refused(n) => n as u32,
        RatioReport::Is(ratio) => {
            values[0] = words::pattern(pattern, ratio);
            16
        }
    }
}

fn tell_place(values: &mut [u64], place: Option<Positions>) -> u32
    requires { length values.old ≡ place_values }
    ensures number { result ≡ number (place_told place) }
    ensures values { values.new ≡ given values.old (place_told place) }
{
    match place {
        None => 16,
        Some(at) => {
            values[0] = at.first;
            values[1] = at.last;
            17
        }
    }
}

pub fn tell_position(values: &mut [u64], report: PositionReport) -> u32
    requires { length values.old ≡ place_values }
    ensures number { result ≡ number (position_told report) }
    ensures values { values.new ≡ given values.old (position_told report) }
{
    match report {
        PositionReport::Refused(n) => n as u32,
        PositionReport::Is(place) => tell_place(values, place),
    }
}

pub fn tell_range(values: &mut [u64], report: RangeReport) -> u32
    requires { length values.old ≡ range_values }
    ensures number { result ≡ number (range_told report) }
    ensures values { values.new ≡ given values.old (range_told report) }
{
    match report {
        RangeReport::Refused(n) => n as u32,
        RangeReport::Is(range) => {
            values[0] = range.first.0;
            values[1] = range.last.0;
            16
        }
    }
}

pub fn tell_peak(values: &mut [u64], answer: PeakAnswer) -> u32
    requires { length values.old ≡ peak_values }
    ensures number { result ≡ number (peak_told answer) }
    ensures values { values.new ≡ peak_given values.old answer }
{
    match answer {
        PeakAnswer::Refused(n) => n as u32,
        PeakAnswer::NoCandidate(at) => {
            values[1] = at.first;
            values[3] = at.last;
            16
        }
        PeakAnswer::Candidate(lock) => {
            values[0] = lock.delay.0;
            values[1] = lock.peak_at.first;
            values[2] = words::pattern(0, lock.ratio);
            values[3] = lock.peak_at.last;
            17
        }
    }
}
