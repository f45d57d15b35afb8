// A channel's scan, out of the pair and back; the common part; a pair as new.
ghost use Rattle.std.specs.Prelude.{◌≡◌};
ghost use Rattle.answers.specs.declared.Change.TheVariants as Change;
ghost use Rattle.scan_pair.specs.State;
ghost use Rattle.scan_pair.specs.State.{side_of, new_channel, restarted, pair_with_far, as_scan, channel_of};
ghost use Rattle.scan_pair.specs.Calls.{left_in, scan_of};

use answers::Change;
use scan::{Far, Geometry, Scan};
use scan_calls::parts;
use scan_pair::{Channel, Pair, PairChanged};

// A channel with the common part is a scan.
fn as_scan(pair: Pair, channel: Channel) -> Scan
    ensures { result ≡ as_scan pair channel }
{
    Scan {
        geometry: pair.geometry,
        far: pair.far,
        near: channel.near,
        verdict: channel.verdict,
    }
}

fn channel_of(scan: Scan) -> Channel
    ensures { result ≡ channel_of scan }
{
    Channel {
        near: scan.near,
        verdict: scan.verdict,
    }
}

fn new_channel() -> Channel
    ensures { result ≡ new_channel }
{
    Channel {
        near: parts::new_near(),
        verdict: parts::new_verdict(),
    }
}

// The scan of channel 0, or else of channel 1.
pub fn scan_of(pair: Pair, channel: u32) -> Scan
    ensures { result ≡ scan_of pair (side_of channel) }
{
    if channel == 0 {
        as_scan(pair, pair.first)
    } else {
        as_scan(pair, pair.second)
    }
}

// The common part, with a channel that is new.
pub fn common(pair: Pair) -> Scan
    ensures { result ≡ State.common pair }
{
    as_scan(pair, new_channel())
}

// The pair with what a call left in channel 0, or else in channel 1.
pub fn left_in(pair: Pair, channel: u32, scan: Scan) -> Pair
    ensures { result ≡ left_in pair (side_of channel) scan }
{
    if channel == 0 {
        Pair {
            first: channel_of(scan),
            ..pair
        }
    } else {
        Pair {
            second: channel_of(scan),
            ..pair
        }
    }
}

pub fn with_far(pair: Pair, far: Far) -> Pair
    ensures { result ≡ pair_with_far pair far }
{
    Pair { far, ..pair }
}

// A pair as it is made.
pub fn as_new(geometry: Geometry) -> Pair
    ensures { result ≡ restarted geometry }
{
    Pair {
        geometry,
        far: parts::new_far(),
        first: new_channel(),
        second: new_channel(),
    }
}

pub fn refused(pair: Pair, number: u8) -> PairChanged
    ensures { result ≡ record { pair = pair; answer = Change.Refused number } }
{
    PairChanged {
        pair,
        answer: Change::Refused(number),
    }
}

pub fn done(pair: Pair) -> PairChanged
    ensures { result ≡ record { pair = pair; answer = Change.Done } }
{
    PairChanged {
        pair,
        answer: Change::Done,
    }
}
