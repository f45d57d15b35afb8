// What a call answers: below 16 its refusal's number, from 16 on the case, in the order of SPECIFICATION 3; and the values that come with it, which go into a lent list.
ghost use Rattle.std.specs.Prelude.{◌≡◌, ◌≤◌, length};
ghost use Rattle.answers.specs.Told.{change_told};
ghost use Rattle.words.specs.Words.{one_value};
ghost use Rattle.words.specs.Answers.{number, given};
ghost use Rattle.scan.specs.Told.{taking_told, frame_told, scoring_told, found_told, region_told, level_told, samples_told};
ghost use Rattle.scan_words.specs.Layout.{scan_words};
ghost use Rattle.scan_words.specs.Answers.{frame_values, region_value_count, changed_words, placed, scoring_given, found_given, region_given, level_given};

use crate::storing;
use floats::bits;
use scan::{
    Changed, Found, Frame, LevelReport, Region, RegionReport, SamplesReport, Scoring, Taking,
};

// How many values a call is lent a list for, where it is not one.
pub const FRAME_VALUES: usize = 3;

pub const REGION_VALUES: usize = 2;

pub fn settle_change(state: &mut [u64], changed: Changed) -> u32
    requires { length state.old ≡ scan_words }
    ensures number { result ≡ number (change_told changed.answer) }
    ensures words { state.new ≡ changed_words state.old changed }
{
    storing::settle(state, words::change_number(changed.answer), changed.scan)
}

pub fn taking_number(answer: Taking) -> u32
    ensures { result ≡ number (taking_told answer) }
{
    match answer {
        Taking::Refused(n) => n as u32,
        Taking::Ignored => 16,
        Taking::Dropped => 17,
        Taking::Taken => 18,
        Taking::Full => 19,
    }
}

// A region's delay, and the pattern of its correlation.
fn place(values: &mut [u64], region: Region, pattern: u64)
    requires { region_value_count ≤ length values.old }
    ensures { values.new ≡ placed values.old region pattern }
{
    values[0] = region.delay.0;
    values[1] = pattern;
}

fn tell_frame(values: &mut [u64], frame: Frame) -> u32
    requires { length values.old ≡ frame_values }
    ensures number { result ≡ number (frame_told frame) }
    ensures values { values.new ≡ given values.old (frame_told frame) }
{
    match frame {
        Frame::Uncovered => 16,
        Frame::Ahead => 17,
        Frame::Quiet => 18,
        Frame::Flat => 19,
        Frame::Banked(peak) => {
            values[0] = bits::pattern32(peak) as u64;
            20
        }
        Frame::Weak => 21,
        Frame::Ceiling => 22,
        Frame::Crowded => 23,
        Frame::Region(region) => {
            place(values, region, bits::pattern64(region.correlation));
            24
        }
    }
}

pub fn tell_scoring(values: &mut [u64], answer: Scoring) -> u32
    requires { length values.old ≡ frame_values }
    ensures number { result ≡ number (scoring_told answer) }
    ensures values { values.new ≡ scoring_given values.old answer }
{
    match answer {
        Scoring::Refused(n) => n as u32,
        Scoring::Frame(frame, products) => {
            let number = tell_frame(values, frame);
            values[2] = products;
            number
        }
    }
}

// ---- reports: the number, and the values into the list. A float is told by the pattern that it has in the state, where it stands there.

fn tell_found(values: &mut [u64], old: u64, found: Found) -> u32
    requires { length values.old ≡ region_value_count }
    ensures number { result ≡ number (found_told found) }
    ensures values { values.new ≡ found_given values.old old found }
{
    match found {
        Found::Nothing => 16,
        Found::At(region) => {
            place(values, region, words::pattern(old, region.correlation));
            17
        }
    }
}

pub fn tell_region(values: &mut [u64], old: u64, answer: RegionReport) -> u32
    requires { length values.old ≡ region_value_count }
    ensures number { result ≡ number (region_told answer) }
    ensures values { values.new ≡ region_given values.old old answer }
{
    match answer {
        RegionReport::Refused(n) => n as u32,
        RegionReport::Is(found) => tell_found(values, old, found),
    }
}

pub fn tell_level(values: &mut [u64], old: u32, answer: LevelReport) -> u32
    requires { length values.old ≡ one_value }
    ensures number { result ≡ number (level_told answer) }
    ensures values { values.new ≡ level_given values.old old answer }
{
    match answer {
        LevelReport::Refused(n) => n as u32,
        LevelReport::Is(x) => {
            values[0] = words::pattern32(old, x) as u64;
            16
        }
    }
}

pub fn tell_samples(values: &mut [u64], answer: SamplesReport) -> u32
    requires { length values.old ≡ one_value }
    ensures number { result ≡ number (samples_told answer) }
    ensures values { values.new ≡ given values.old (samples_told answer) }
{
    match answer {
        SamplesReport::Refused(n) => n as u32,
        SamplesReport::Is(samples) => {
            values[0] = samples.0;
            16
        }
    }
}
