// Sums, tables and searches over lent slices, each folded in one fixed order.
#![tactic(auto)]

ghost use Rattle.std.specs.Prelude.{◌≡◌, ℕ, ◌+◌, ◌<◌, ◌≤◌, true, length};
ghost use Rattle.std.specs.Float.Ieee.Scale.{finite};
ghost use Rattle.folds.specs.Sums.{zeros, sum_of, prefix_sums, prefix_squares, all_finite, at};
ghost use Rattle.folds.specs.Search.{search_down};

// The largest value above 0 and its index.
#[derive(Clone, Copy)]
pub struct Peak {
    pub place: u64,
    pub value: f64,
}

// Sums the values, ascending.
pub fn sum(xs: &[f32]) -> f64
    ensures { result ≡ sum_of xs.now }
{
    let mut total = 0.0;
    for &x in xs {
        total += f64::from(x);
    }
    total
}

// Writes the prefix sums of the values and of their squares.
pub fn prefixes(xs: &[f32], sums: &mut [f64], squares: &mut [f64])
    requires { (length sums.old ≡ length xs.now + 1) × (length squares.old ≡ length xs.now + 1) }
    ensures sums { sums.new ≡ prefix_sums xs.now }
    ensures squares { squares.new ≡ prefix_squares xs.now }
{
    let mut total = 0.0;
    let mut energy = 0.0;
    sums[0] = total;
    squares[0] = energy;
    for (i, &value) in xs.iter().enumerate() {
        let x = f64::from(value);
        total += x;
        energy += x * x;
        sums[i + 1] = total;
        squares[i + 1] = energy;
    }
}

// Searches as the coarse scan does: from the last index down, with strict >.
pub fn search_down(xs: &[f64]) -> Peak
    ensures { result ≡ search_down xs.now }
{
    let mut value = 0.0;
    let mut place = 0;
    for (k, &v) in xs.iter().enumerate().rev() {
        if v > value {
            value = v;
            place = k as u64;
        }
    }
    Peak { place, value }
}

// ---- tests and clearing

// Tells, value by value, whether there is no NaN and no infinity. The loop has no early exit, as `all` would have, so that several values are tested at once: `fine &= ..` takes a quarter longer.
fn each_finite(xs: &[f32]) -> bool
    ensures { result ≡ all_finite xs.now }
{
    let mut fine = true;
    for &x in xs {
        if !floats::is_finite32(x) {
            fine = false;
        }
    }
    fine
}

// Tests four values at once, one of each quarter: a finite sum has finite parts. The sum of finite values may be infinite, so a no proves nothing.
fn quarters_finite(xs: &[f32], q: usize) -> bool
    requires { q + q + q + q ≤ length xs.now }
    ensures { result ≡ true → (j : ℕ) → j < q + q + q + q → finite (at xs.now j) ≡ true }
{
    let mut fine = true;
    for i in 0..q {
        if !floats::is_finite32(xs[i] + xs[q + i] + xs[q + q + i] + xs[q + q + q + i]) {
            fine = false;
        }
    }
    fine
}

// Tells whether there is no NaN and no infinity.
pub fn all_finite(xs: &[f32]) -> bool
    ensures { result ≡ all_finite xs.now }
{
    let q = xs.len() / 4;
    if quarters_finite(xs, q) {
        return each_finite(&xs[q + q + q + q..]);
    }
    each_finite(xs)
}

// The same for f64, without the quarters: it is asked of few values. One over both types would need a trait of its own in every contract, for a loop of a few lines.
pub fn all_finite64(xs: &[f64]) -> bool
    ensures { result ≡ all_finite xs.now }
{
    let mut fine = true;
    for &x in xs {
        if !floats::is_finite(x) {
            fine = false;
        }
    }
    fine
}

// Sets every value to +0. There is one for each type, since the contract speaks of floats: over any type it would be `fill` itself.
pub fn clear32(xs: &mut [f32])
    ensures { xs.new ≡ zeros (length xs.old) }
{
    xs.fill(0.0);
}

pub fn clear64(xs: &mut [f64])
    ensures { xs.new ≡ zeros (length xs.old) }
{
    xs.fill(0.0);
}
