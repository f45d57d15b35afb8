// What a scan reports. No buffer is lent: each report refuses 1 and 3, and changes nothing.
ghost use Rattle.std.specs.Prelude.{◌≡◌};
ghost use Rattle.scan.specs.Calls.{report_refusal, bin_samples, ceiling_samples, region_of, beyond_ceiling, is_finished, is_exhausted, frames_of, correlation_in, correlation_of};

use answers::{Count, Flag};
use scan::{Found, LevelReport, RegionReport, SamplesReport, Scan};
use units::Bins;

fn refusal(scan: Scan) -> u8
    ensures { result ≡ report_refusal scan }
{
    let due = crate::rules::geometry_of(scan.geometry.rate, scan.geometry.ceiling);
    crate::rules::first_refusals(scan, due, true)
}

// One bin in native samples: the scan's resolution.
pub fn bin_samples(scan: Scan) -> SamplesReport
    ensures { result ≡ bin_samples scan }
{
    let n = refusal(scan);
    if n != 0 {
        return SamplesReport::Refused(n);
    }
    SamplesReport::Is(Bins(1).in_samples(scan.geometry.decimation))
}

// The ceiling in native samples.
pub fn ceiling_samples(scan: Scan) -> SamplesReport
    ensures { result ≡ ceiling_samples scan }
{
    let n = refusal(scan);
    if n != 0 {
        return SamplesReport::Refused(n);
    }
    SamplesReport::Is(Bins(scan.geometry.span).in_samples(scan.geometry.decimation))
}

// The region, if one was found.
pub fn region(scan: Scan) -> RegionReport
    ensures { result ≡ region_of scan }
{
    let n = refusal(scan);
    if n != 0 {
        return RegionReport::Refused(n);
    }
    RegionReport::Is(scan.verdict.found)
}

// The frames counted since the making, the last rearm or the last reset.
pub fn frames(scan: Scan) -> Count
    ensures { result ≡ frames_of scan }
{
    Count::of(refusal(scan), scan.verdict.frames as u64)
}

// The region's averaged value as f32, and before there is one the last frame's peak.
fn correlation_in(found: Found, last: f32) -> f32
    ensures { result ≡ correlation_in found last }
{
    match found {
        Found::Nothing => last,
        Found::At(region) => floats::narrowed(region.correlation),
    }
}

pub fn correlation(scan: Scan) -> LevelReport
    ensures { result ≡ correlation_of scan }
{
    let n = refusal(scan);
    if n != 0 {
        return LevelReport::Refused(n);
    }
    LevelReport::Is(correlation_in(scan.verdict.found, scan.verdict.last))
}

// Whether a peak stood at the ceiling.
pub fn beyond_ceiling(scan: Scan) -> Flag
    ensures { result ≡ beyond_ceiling scan }
{
    Flag::of(refusal(scan), scan.verdict.beyond)
}

// Whether the scan has stopped working: it found a region, or gave up.
pub fn finished(scan: Scan) -> Flag
    ensures { result ≡ is_finished scan }
{
    Flag::of(refusal(scan), crate::rules::finished(scan.verdict))
}

// Whether the scan gave up.
pub fn exhausted(scan: Scan) -> Flag
    ensures { result ≡ is_exhausted scan }
{
    Flag::of(refusal(scan), scan.verdict.exhausted)
}
