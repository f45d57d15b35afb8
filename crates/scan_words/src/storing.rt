// A scan's state, into its words.
ghost use Rattle.std.specs.Prelude.{◌≡◌, length};
ghost use Rattle.scan_words.specs.Layout.{scan_words, stored_geometry, stored_far, stored_near, stored_found, stored_verdict, stored, settled};

use scan::{Far, Found, Geometry, Near, Scan, Verdict};

pub fn store_geometry(state: &mut [u64], g: Geometry)
    requires { length state.old ≡ scan_words }
    ensures { state.new ≡ stored_geometry state.old g }
{
    state[0] = g.rate as u64;
    state[1] = g.ceiling as u64;
    state[2] = g.decimation;
    state[3] = g.bin_rate;
    state[4] = g.span;
    state[5] = g.frame;
    state[6] = g.ceiling_guard;
    state[7] = g.peak_guard;
}

pub fn store_far(state: &mut [u64], far: Far)
    requires { length state.old ≡ scan_words }
    ensures { state.new ≡ stored_far state.old far }
{
    let sum = words::pattern(state[9], far.sum);
    state[8] = far.next;
    state[9] = sum;
    state[10] = far.count;
    state[11] = far.accepted;
}

pub fn store_near(state: &mut [u64], near: Near)
    requires { length state.old ≡ scan_words }
    ensures { state.new ≡ stored_near state.old near }
{
    let sum = words::pattern(state[13], near.sum);
    state[12] = near.len;
    state[13] = sum;
    state[14] = near.count;
    state[15] = near.first;
    state[24] = near.last;
}

fn store_found(state: &mut [u64], found: Found)
    requires { length state.old ≡ scan_words }
    ensures { state.new ≡ stored_found state.old found }
{
    match found {
        Found::Nothing => {
            state[19] = 0;
        }
        Found::At(region) => {
            let correlation = words::pattern(state[21], region.correlation);
            state[19] = 1;
            state[20] = region.delay.0;
            state[21] = correlation;
        }
    }
}

pub fn store_verdict(state: &mut [u64], v: Verdict)
    requires { length state.old ≡ scan_words }
    ensures { state.new ≡ stored_verdict state.old v }
{
    let last = words::pattern32(words::half(state[18], 0), v.last);
    let beyond = words::flag(v.beyond);
    let exhausted = words::flag(v.exhausted);
    state[16] = v.banked as u64;
    state[17] = v.frames as u64;
    state[18] = last as u64;
    state[22] = beyond;
    state[23] = exhausted;
    store_found(state, v.found);
}

fn store(state: &mut [u64], scan: Scan)
    requires { length state.old ≡ scan_words }
    ensures { state.new ≡ stored state.old scan }
{
    store_geometry(state, scan.geometry);
    store_far(state, scan.far);
    store_near(state, scan.near);
    store_verdict(state, scan.verdict);
}

// What a call leaves in the words, nothing new where it was refused; and the call's number.
pub fn settle(state: &mut [u64], number: u32, scan: Scan) -> u32
    requires { length state.old ≡ scan_words }
    ensures number { result ≡ number }
    ensures words { state.new ≡ settled state.old number scan }
{
    if number < 16 {
        return number;
    }
    store(state, scan);
    number
}
