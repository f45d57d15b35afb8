// A pair's state, into its words: a call writes the words of what it may change, and no other.
ghost use Rattle.std.specs.Prelude.{◌≡◌, length};
ghost use Rattle.scan_words.specs.Layout.{scan_words, stored_geometry, stored_far};
ghost use Rattle.scan_pair.specs.State.{side_of};
ghost use Rattle.scan_pair_words.specs.Layout.{pair_words, stored_channel, stored_in, far_stored, common_stored, stored_pair, settled_in, far_settled, pair_settled};

use scan::{Far, Geometry};
use scan_pair::{Channel, Pair};
use scan_words::storing;

fn store_channel(state: &mut [u64], channel: Channel)
    requires { length state.old ≡ scan_words }
    ensures { state.new ≡ stored_channel state.old channel }
{
    storing::store_near(state, channel.near);
    storing::store_verdict(state, channel.verdict);
}

fn store_settings(state: &mut [u64], geometry: Geometry, far: Far)
    requires { length state.old ≡ scan_words }
    ensures { state.new ≡ stored_far (stored_geometry state.old geometry) far }
{
    storing::store_geometry(state, geometry);
    storing::store_far(state, far);
}

// Into the words of channel 0, or else of channel 1.
fn store_in(state: &mut [u64], number: u32, channel: Channel)
    requires { length state.old ≡ pair_words }
    ensures { state.new ≡ stored_in state.old (side_of number) channel }
{
    if number == 0 {
        store_channel(&mut state[0..25], channel);
        return;
    }
    store_channel(&mut state[13..38], channel);
}

fn store_far(state: &mut [u64], far: Far)
    requires { length state.old ≡ pair_words }
    ensures { state.new ≡ far_stored state.old far }
{
    storing::store_far(&mut state[0..25], far);
}

fn store_common(state: &mut [u64], pair: Pair)
    requires { length state.old ≡ pair_words }
    ensures { state.new ≡ common_stored state.old pair }
{
    store_settings(&mut state[0..25], pair.geometry, pair.far);
}

fn store(state: &mut [u64], pair: Pair)
    requires { length state.old ≡ pair_words }
    ensures { state.new ≡ stored_pair state.old pair }
{
    store_common(state, pair);
    store_in(state, 0, pair.first);
    store_in(state, 1, pair.second);
}

// What a call of a channel leaves in the words, nothing new where it was refused; and the call's number.
pub fn settle_in(state: &mut [u64], number: u32, channel: u32, pair: Pair) -> u32
    requires { length state.old ≡ pair_words }
    ensures number { result ≡ number }
    ensures words { state.new ≡ settled_in state.old number (side_of channel) pair }
{
    if number < 16 {
        return number;
    }
    if channel == 0 {
        store_in(state, channel, pair.first);
        return number;
    }
    store_in(state, channel, pair.second);
    number
}

// The same of a far push.
pub fn settle_far(state: &mut [u64], number: u32, pair: Pair) -> u32
    requires { length state.old ≡ pair_words }
    ensures number { result ≡ number }
    ensures words { state.new ≡ far_settled state.old number pair }
{
    if number < 16 {
        return number;
    }
    store_far(state, pair.far);
    number
}

// The same of a making and a reset.
pub fn settle(state: &mut [u64], number: u32, pair: Pair) -> u32
    requires { length state.old ≡ pair_words }
    ensures number { result ≡ number }
    ensures words { state.new ≡ pair_settled state.old number pair }
{
    if number < 16 {
        return number;
    }
    store(state, pair);
    number
}
