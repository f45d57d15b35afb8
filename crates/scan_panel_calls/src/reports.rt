// What a scan reports. No buffer is lent: each report refuses 1 and 3, and changes nothing.
ghost use Rattle.std.specs.Prelude.{◌≡◌};
ghost use Rattle.scan_panel.specs.Panel.{panel_bin_samples, panel_ceiling_samples, panel_region_of, panel_beyond_ceiling, panel_is_finished, panel_is_exhausted, panel_frames_of, panel_correlation_of};

use crate::profile;
use answers::{Count, Flag};
use scan::{LevelReport, RegionReport, SamplesReport, Scan};

// One bin in native samples: the scan's resolution.
pub fn bin_samples(scan: Scan) -> SamplesReport
    ensures { result ≡ panel_bin_samples scan }
{
    if !profile::allows(scan) {
        return SamplesReport::Refused(answers::OUTSIDE_TABLE);
    }
    scan_calls::reports::bin_samples(scan)
}

// The ceiling in native samples.
pub fn ceiling_samples(scan: Scan) -> SamplesReport
    ensures { result ≡ panel_ceiling_samples scan }
{
    if !profile::allows(scan) {
        return SamplesReport::Refused(answers::OUTSIDE_TABLE);
    }
    scan_calls::reports::ceiling_samples(scan)
}

// The region, if one was found.
pub fn region(scan: Scan) -> RegionReport
    ensures { result ≡ panel_region_of scan }
{
    if !profile::allows(scan) {
        return RegionReport::Refused(answers::OUTSIDE_TABLE);
    }
    scan_calls::reports::region(scan)
}

// The frames counted since the making, the last rearm or the last reset.
pub fn frames(scan: Scan) -> Count
    ensures { result ≡ panel_frames_of scan }
{
    if !profile::allows(scan) {
        return Count::Refused(answers::OUTSIDE_TABLE);
    }
    scan_calls::reports::frames(scan)
}

// The region's averaged value as f32, and before there is one the last frame's peak.
pub fn correlation(scan: Scan) -> LevelReport
    ensures { result ≡ panel_correlation_of scan }
{
    if !profile::allows(scan) {
        return LevelReport::Refused(answers::OUTSIDE_TABLE);
    }
    scan_calls::reports::correlation(scan)
}

// Whether a peak stood at the ceiling.
pub fn beyond_ceiling(scan: Scan) -> Flag
    ensures { result ≡ panel_beyond_ceiling scan }
{
    if !profile::allows(scan) {
        return Flag::Refused(answers::OUTSIDE_TABLE);
    }
    scan_calls::reports::beyond_ceiling(scan)
}

// Whether the scan has stopped working: it found a region, or gave up.
pub fn finished(scan: Scan) -> Flag
    ensures { result ≡ panel_is_finished scan }
{
    if !profile::allows(scan) {
        return Flag::Refused(answers::OUTSIDE_TABLE);
    }
    scan_calls::reports::finished(scan)
}

// Whether the scan gave up.
pub fn exhausted(scan: Scan) -> Flag
    ensures { result ≡ panel_is_exhausted scan }
{
    if !profile::allows(scan) {
        return Flag::Refused(answers::OUTSIDE_TABLE);
    }
    scan_calls::reports::exhausted(scan)
}
