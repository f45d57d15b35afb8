// A scan's state, from its words.
ghost use Rattle.std.specs.Prelude.{◌≡◌, length};
ghost use Rattle.scan_words.specs.Answers.{level_pattern};
ghost use Rattle.scan_words.specs.Layout.{scan_words, loaded_geometry, loaded_far, loaded_near, loaded_found, are_cases, loaded_banked, loaded_verdict, loaded};

use scan::{Far, Found, Geometry, Near, Region, Scan, Verdict};
use units::Samples;

pub fn load_geometry(state: &[u64]) -> Geometry
    requires { length state.now ≡ scan_words }
    ensures { result ≡ loaded_geometry state.now }
{
    Geometry {
        rate: words::half(state[0], 0),
        ceiling: words::half(state[1], 0),
        decimation: state[2],
        bin_rate: state[3],
        span: state[4],
        frame: state[5],
        ceiling_guard: state[6],
        peak_guard: state[7],
    }
}

pub fn load_far(state: &[u64]) -> Far
    requires { length state.now ≡ scan_words }
    ensures { result ≡ loaded_far state.now }
{
    Far {
        next: state[8],
        sum: floats::bits::float64(state[9]),
        count: state[10],
        accepted: state[11],
    }
}

pub fn load_near(state: &[u64]) -> Near
    requires { length state.now ≡ scan_words }
    ensures { result ≡ loaded_near state.now }
{
    Near {
        len: state[12],
        sum: floats::bits::float64(state[13]),
        count: state[14],
        first: state[15],
        last: state[24],
    }
}

fn load_found(state: &[u64]) -> Found
    requires { length state.now ≡ scan_words }
    ensures { result ≡ loaded_found state.now }
{
    if state[19] == 0 {
        return Found::Nothing;
    }
    Found::At(Region {
        delay: Samples(state[20]),
        correlation: floats::bits::float64(state[21]),
    })
}

fn are_cases(state: &[u64]) -> bool
    requires { length state.now ≡ scan_words }
    ensures { result ≡ are_cases state.now }
{
    words::all_below(0x1_0000_0000, state[16], state[17], state[18])
        && words::all_below(2, state[19], state[22], state[23])
}

fn load_banked(state: &[u64]) -> u32
    requires { length state.now ≡ scan_words }
    ensures { result ≡ loaded_banked state.now }
{
    if are_cases(state) {
        return words::half(state[16], 4);
    }
    4
}

pub fn load_verdict(state: &[u64]) -> Verdict
    requires { length state.now ≡ scan_words }
    ensures { result ≡ loaded_verdict state.now }
{
    Verdict {
        banked: load_banked(state),
        frames: words::half(state[17], 0),
        last: floats::bits::float32(words::half(state[18], 0)),
        found: load_found(state),
        beyond: state[22] == 1,
        exhausted: state[23] == 1,
    }
}

pub fn load(state: &[u64]) -> Scan
    requires { length state.now ≡ scan_words }
    ensures { result ≡ loaded state.now }
{
    Scan {
        geometry: load_geometry(state),
        far: load_far(state),
        near: load_near(state),
        verdict: load_verdict(state),
    }
}

// The pattern of the last frame's peak where that is what `correlation` tells: without a region. A region's level stands nowhere in the state.
pub fn level_pattern(state: &[u64]) -> u32
    requires { length state.now ≡ scan_words }
    ensures { result ≡ level_pattern state.now }
{
    if state[19] == 0 {
        return words::half(state[18], 0);
    }
    0
}
