// A pair's state, from its words.
ghost use Rattle.std.specs.Prelude.{◌≡◌, length};
ghost use Rattle.scan_words.specs.Layout.{scan_words, loaded_geometry, loaded_far};
ghost use Rattle.scan_pair.specs.State.{side_of};
ghost use Rattle.scan_pair_words.specs.Layout.{pair_words, words_of, loaded_channel, loaded_pair};

use scan_pair::{Channel, Pair};
use scan_words::loading;

// The 25 words whose last 13 are those of channel 0, or else of channel 1.
pub fn words_of(state: &[u64], channel: u32) -> &[u64]
    requires { length state.now ≡ pair_words }
    ensures words { result.now ≡ words_of (side_of channel) state.now }
    ensures many { length result.now ≡ scan_words }
{
    if channel == 0 {
        return &state[0..25];
    }
    &state[13..38]
}

fn load_channel(state: &[u64]) -> Channel
    requires { length state.now ≡ scan_words }
    ensures { result ≡ loaded_channel state.now }
{
    Channel {
        near: loading::load_near(state),
        verdict: loading::load_verdict(state),
    }
}

// From the words of each channel: those of channel 0 stand behind the common part.
fn load_parts(one: &[u64], two: &[u64]) -> Pair
    requires { (length one.now ≡ scan_words) × (length two.now ≡ scan_words) }
    ensures { result ≡ record { geometry = loaded_geometry one.now; far = loaded_far one.now; first = loaded_channel one.now; second = loaded_channel two.now } }
{
    Pair {
        geometry: loading::load_geometry(one),
        far: loading::load_far(one),
        first: load_channel(one),
        second: load_channel(two),
    }
}

pub fn load(state: &[u64]) -> Pair
    requires { length state.now ≡ pair_words }
    ensures { result ≡ loaded_pair state.now }
{
    load_parts(words_of(state, 0), words_of(state, 1))
}
