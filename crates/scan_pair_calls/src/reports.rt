// What a channel reports, judged by the common part and its own; and the two reports of the settings, judged by the common part alone. No report changes anything.
ghost use Rattle.std.specs.Prelude.{◌≡◌};
ghost use Rattle.scan_pair.specs.State.{named};
ghost use Rattle.scan_pair.specs.Calls.{pair_region, pair_beyond_ceiling, pair_frames, pair_correlation, pair_finished, pair_exhausted, pair_bin_samples, pair_ceiling_samples};

use crate::parts;
use answers::{Count, Flag};
use scan::{LevelReport, RegionReport, SamplesReport};
use scan_pair::{NO_SUCH_CHANNEL, Pair};

// The region, if one was found.
pub fn region(pair: Pair, channel: u32) -> RegionReport
    ensures { result ≡ pair_region pair (named channel) }
{
    if channel >= 2 {
        return RegionReport::Refused(NO_SUCH_CHANNEL);
    }
    scan_calls::reports::region(parts::scan_of(pair, channel))
}

// The frames counted since the making, the channel's last rearm or the last reset.
pub fn frames(pair: Pair, channel: u32) -> Count
    ensures { result ≡ pair_frames pair (named channel) }
{
    if channel >= 2 {
        return Count::Refused(NO_SUCH_CHANNEL);
    }
    scan_calls::reports::frames(parts::scan_of(pair, channel))
}

// The region's averaged value as f32, and before there is one the last frame's peak.
pub fn correlation(pair: Pair, channel: u32) -> LevelReport
    ensures { result ≡ pair_correlation pair (named channel) }
{
    if channel >= 2 {
        return LevelReport::Refused(NO_SUCH_CHANNEL);
    }
    scan_calls::reports::correlation(parts::scan_of(pair, channel))
}

// Whether a peak stood at the ceiling.
pub fn beyond_ceiling(pair: Pair, channel: u32) -> Flag
    ensures { result ≡ pair_beyond_ceiling pair (named channel) }
{
    if channel >= 2 {
        return Flag::Refused(NO_SUCH_CHANNEL);
    }
    scan_calls::reports::beyond_ceiling(parts::scan_of(pair, channel))
}

// Whether the channel has stopped working: it found a region, or gave up.
pub fn finished(pair: Pair, channel: u32) -> Flag
    ensures { result ≡ pair_finished pair (named channel) }
{
    if channel >= 2 {
        return Flag::Refused(NO_SUCH_CHANNEL);
    }
    scan_calls::reports::finished(parts::scan_of(pair, channel))
}

// Whether the channel gave up.
pub fn exhausted(pair: Pair, channel: u32) -> Flag
    ensures { result ≡ pair_exhausted pair (named channel) }
{
    if channel >= 2 {
        return Flag::Refused(NO_SUCH_CHANNEL);
    }
    scan_calls::reports::exhausted(parts::scan_of(pair, channel))
}

// One bin in native samples: the resolution of both channels.
pub fn bin_samples(pair: Pair) -> SamplesReport
    ensures { result ≡ pair_bin_samples pair }
{
    scan_calls::reports::bin_samples(parts::common(pair))
}

// The ceiling in native samples.
pub fn ceiling_samples(pair: Pair) -> SamplesReport
    ensures { result ≡ pair_ceiling_samples pair }
{
    scan_calls::reports::ceiling_samples(parts::common(pair))
}
