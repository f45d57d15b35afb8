// Refusals 1, 2 and 3, with which every call begins: the table, the lengths of the lent buffers, the state rules.
ghost use Rattle.std.specs.Prelude.{◌≡◌, true, not, ◌+◌, ◌*◌, ◌/◌, ◌%◌, ◌^◌, ◌<◌, ◌≤◌, max, eqb, ltb};
ghost use Rattle.answers.specs.Pick.{both, either};
ghost use Rattle.answers.specs.Numbers.{limit};
ghost use Rattle.scan.specs.Bins;
ghost use Rattle.scan.specs.Bins.{in_table, geometry_of, same_geometry, envelope_len};
ghost use Rattle.scan.specs.State;
ghost use Rattle.scan_calls.specs.Bounds.{Bounds, Places};
ghost use Rattle.scan.specs.State.{far_rule, near_rule, verdict_rule, keeps_rules, first_refusals};

use scan::{Far, Found, Geometry, Near, Scan, Verdict};

// ---- 1: the table, and what follows from rate and ceiling

pub fn in_table(rate: u32, ceiling: u32) -> bool
    ensures { result ≡ in_table rate ceiling }
{
    answers::allowed_rate(rate) && answers::allowed_ceiling(ceiling)
}

// So many ms in bins, of which there are `rate` a second.
fn in_bins(rate: u64, ms: u32) -> u64
    requires { rate < 2 ^ 32 }
    ensures is { result ≡ max 1 (ms * rate / 1000) }
    ensures small { result < 2 ^ 62 }
{
    (ms as u64 * rate / 1000).max(1)
}

pub fn geometry_of(rate: u32, ceiling: u32) -> Geometry
    ensures is { result ≡ geometry_of rate ceiling }
    ensures small { (result.frame < 2 ^ 62) × (result.span < 2 ^ 62) }
{
    let decimation = ((rate as u64 + 500) / 1000).max(1);
    let bin_rate = (rate as u64 / decimation).max(1);
    Geometry {
        rate,
        ceiling,
        decimation,
        bin_rate,
        span: in_bins(bin_rate, ceiling),
        frame: in_bins(bin_rate, scan::COARSE_FRAME_MS),
        ceiling_guard: in_bins(bin_rate, scan::COARSE_CEILING_GUARD_MS),
        peak_guard: in_bins(bin_rate, scan::COARSE_PEAK_GUARD_MS),
    }
}

// ---- 2: the lengths of the lent buffers

pub fn envelope_len(slack: u32, g: Geometry) -> u64
    requires { (g.frame < 2 ^ 62) × (g.span < 2 ^ 62) }
    ensures { result ≡ envelope_len slack g }
{
    g.frame + g.span + slack as u64
}

pub fn lags(g: Geometry) -> u64
    requires { g.span < 2 ^ 62 }
    ensures { result ≡ Bins.lags g }
{
    g.span + 1
}

// ---- 3: the state rules

// Of what follows from rate and ceiling: those two are not compared, as `same_geometry` of specs/Bins has it, so no derived `==`.
fn same_geometry(g: Geometry, h: Geometry) -> bool
    ensures { result ≡ same_geometry g h }
{
    g.decimation == h.decimation
        && g.bin_rate == h.bin_rate
        && g.span == h.span
        && g.frame == h.frame
        && g.ceiling_guard == h.ceiling_guard
        && g.peak_guard == h.peak_guard
}

// Below it a bin times any decimation is below 2^62.
const SURELY_BELOW: u64 = 0x40_0000_0000_0000;

// Tells whether n / d is `quotient` and n % d is `remainder`: by a product where it surely fits, since a division takes longer than all the other rules.
fn parts_are(n: u64, d: u64, quotient: u64, remainder: u64) -> bool
    requires { (0 < d) × (d ≤ 192) }
    ensures { result ≡ both (eqb quotient (n / d)) (eqb remainder (n % d)) }
{
    if d <= remainder {
        return false;
    }
    if quotient < SURELY_BELOW {
        return quotient * d + remainder == n;
    }
    quotient == n / d && remainder == n % d
}

fn far_rule(g: Geometry, f: Far) -> bool
    requires { Bounds g }
    ensures { result ≡ far_rule g f }
{
    parts_are(f.accepted, g.decimation, f.next, f.count)
        && floats::is_finite(f.sum)
        && f.accepted <= answers::LIMIT
}

// The near partial count is 0 in a full frame.
fn whole_if_full(g: Geometry, n: Near) -> bool
    ensures { result ≡ either (not (State.full g n)) (eqb n.count 0) }
{
    n.len != g.frame || n.count == 0
}

// bin x decimation < 2^62. The product may not fit, and then a division tells.
fn starts_below_limit(bin: u64, decimation: u64) -> bool
    requires { (0 < decimation) × (decimation ≤ 192) }
    ensures { result ≡ ltb (bin * decimation) limit }
{
    bin < SURELY_BELOW || bin <= (answers::LIMIT - 1) / decimation
}

// The samples of the frame under way stand where the last index says; first x decimation is below 2^62.
fn in_place(g: Geometry, n: Near) -> bool
    requires { Places g n }
    ensures { result ≡ either (State.idle n) (eqb (n.last + 1) (n.first * g.decimation + State.taken g n)) }
{
    if idle(n) {
        return true;
    }
    let taken = n.len * g.decimation + n.count;
    n.last == n.first * g.decimation + taken - 1
}

fn near_rule(g: Geometry, n: Near) -> bool
    requires { Bounds g }
    ensures { result ≡ near_rule g n }
{
    n.count < g.decimation
        && whole_if_full(g, n)
        && n.len <= g.frame
        && floats::is_finite(n.sum)
        && starts_below_limit(n.first, g.decimation)
        && in_place(g, n)
}

pub fn present(found: Found) -> bool
    ensures { result ≡ State.present found }
{
    match found {
        Found::Nothing => false,
        Found::At(_) => true,
    }
}

// A region was found, or the scan gave up.
pub fn finished(v: Verdict) -> bool
    ensures { result ≡ State.finished v }
{
    present(v.found) || v.exhausted
}

// Neither a frame nor a block of one is under way.
pub fn idle(n: Near) -> bool
    ensures { result ≡ State.idle n }
{
    n.count == 0 && n.len == 0
}

fn verdict_rule(n: Near, v: Verdict) -> bool
    ensures { result ≡ verdict_rule n v }
{
    v.banked < scan::COARSE_MIN_FRAMES && (!finished(v) || idle(n))
}

// `due` is what rate and ceiling give.
fn keeps_rules(scan: Scan, due: Geometry) -> bool
    requires { (due ≡ State.due scan) × (in_table scan.geometry.rate scan.geometry.ceiling ≡ true) }
    ensures { result ≡ keeps_rules scan }
{
    same_geometry(scan.geometry, due)
        && far_rule(scan.geometry, scan.far)
        && near_rule(scan.geometry, scan.near)
        && verdict_rule(scan.near, scan.verdict)
}

// ---- together

// 1, 2 or 3, and 0 for none. `lengths` says whether each lent buffer is of the length that rate and ceiling give.
pub fn first_refusals(scan: Scan, due: Geometry, lengths: bool) -> u8
    requires { due ≡ State.due scan }
    ensures { result ≡ first_refusals scan lengths }
{
    if !in_table(scan.geometry.rate, scan.geometry.ceiling) {
        return answers::OUTSIDE_TABLE;
    }
    if !lengths {
        return answers::WRONG_LENGTH;
    }
    if !keeps_rules(scan, due) {
        return answers::BROKEN_STATE;
    }
    0
}
