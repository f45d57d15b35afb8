// Step 5 of SPECIFICATION 7: the score of every lag. Sixteen lags go at once, each with its own ascending sum, so every bit is the definition's.
// The products of a lag whose energy is at or below the floor are not formed, and the lags whose products are formed are counted as that is done (request h).
#![tactic(auto)]

ghost use Rattle.std.specs.Prelude.{◌≡◌, ℕ, ◌+◌, ◌^◌, ◌<◌, ◌≤◌, true, false, List, length, Float};
ghost use Rattle.std.specs.Float.{binary64};
ghost use Rattle.std.specs.Float.Ieee.{add, mul, le};
ghost use Rattle.floats.specs.Functions.{zero64};
ghost use Rattle.folds.specs.Sums.{table, at, zeros, prefix_sums, prefix_squares};
ghost use Rattle.folds.specs.Rewriting.{Rewritten};
ghost use Rattle.root_table.specs.Guesses.{Table};
ghost use Rattle.scan.specs.Scoring.{mean_of, centred, near_energy, energy_floor, score_at, live_lags};
ghost use Rattle.scan_lags.specs.Lags.{Starts, energy_from, products_of, score_by, score_from, above, above_in, Inside, Advanced, RoomFits};

use floats::square_root_with;
use folds::{prefixes, sum};
use root_table::first_guesses;

// At or below it a segment is flat (COARSE_VARIANCE_FLOOR).
pub const ENERGY_FLOOR: f64 = 1e-12;

// A lag's score, and 1 if its products were formed, else 0.
#[derive(Clone, Copy)]
struct LagScore {
    score: f64,
    live: u64,
}

// The lag that comes next, and how many lags before it had their products formed in this step.
#[derive(Clone, Copy)]
struct Went {
    next: usize,
    live: u64,
}

// ---- the near frame

pub fn mean(xs: &[f32]) -> f64
    requires { length xs.now ≤ 2 ^ 53 }
    ensures { result ≡ mean_of xs.now }
{
    let n = xs.len();
    sum(xs) / n as f64
}

// The sum of squares of the near values less their mean.
pub fn near_energy(levels: &[f32]) -> f64
    requires { length levels.now ≤ 2 ^ 53 }
    ensures { result ≡ near_energy levels.now }
{
    let m = mean(levels);
    let mut energy = 0.0;
    for &level in levels {
        let x = f64::from(level) - m;
        energy += x * x;
    }
    energy
}

// The near values less their mean, at the start of `out`.
fn centre(levels: &[f32], out: &mut [f64])
    requires { (length levels.now ≤ 2 ^ 53) × (length levels.now ≤ length out.old) }
    ensures { Starts (centred levels.now) (length levels.now) out.new }
{
    let m = mean(levels);
    for (i, &level) in levels.iter().enumerate() {
        out[i] = f64::from(level) - m;
    }
}

// The values as f64, at the start of `out`.
fn widen(xs: &[f32], out: &mut [f64])
    requires { length xs.now ≤ length out.old }
    ensures { Starts (at xs.now) (length xs.now) out.new }
{
    for (i, &x) in xs.iter().enumerate() {
        out[i] = f64::from(x);
    }
}

// ---- the energies

fn energy_at(sums: &[f64], squares: &[f64], frame: usize, k: usize) -> f64
    requires { (k + frame < length sums.now) × (k + frame < length squares.now) × (frame ≤ 2 ^ 53) }
    ensures { result ≡ energy_from sums.now squares.now frame k }
{
    let sum = sums[k + frame] - sums[k];
    let energy = squares[k + frame] - squares[k];
    energy - sum * sum / (frame as f64)
}

// The energy of every lag.
fn write_energies(sums: &[f64], squares: &[f64], frame: usize, energies: &mut [f64])
    requires { (length energies.old + frame ≤ length sums.now) × (length energies.old + frame ≤ length squares.now) × (frame ≤ 2 ^ 53) }
    ensures { energies.new ≡ table (energy_from sums.now squares.now frame) (length energies.old) }
{
    for (k, energy) in energies.iter_mut().enumerate() {
        *energy = energy_at(sums, squares, frame, k);
    }
}

// ---- one lag

fn products(near: &[f64], window: &[f64], frame: usize, k: usize) -> f64
    requires { Inside near.now window.now frame k 1 }
    ensures { result ≡ products_of near.now window.now frame k }
{
    let mut sum = 0.0;
    for i in 0..frame {
        sum += near[i] * window[k + i];
    }
    sum
}

fn score(guesses: &[u16], product: f64, power: f64, energy: f64) -> f64
    requires { Table guesses.now }
    ensures { result ≡ score_by product power energy }
{
    product / square_root_with(guesses, power * energy)
}

fn score_lag(
    guesses: &[u16],
    near: &[f64],
    window: &[f64],
    frame: usize,
    power: f64,
    k: usize,
    energy: f64,
) -> LagScore
    requires { Table guesses.now × Inside near.now window.now frame k 1 }
    ensures score { result.score ≡ score_from near.now window.now frame power k energy }
    ensures live { result.live ≡ above energy }
{
    if energy <= ENERGY_FLOOR {
        return LagScore {
            score: 0.0,
            live: 0,
        };
    }
    let sum = products(near, window, frame, k);
    LagScore {
        score: score(guesses, sum, power, energy),
        live: 1,
    }
}

// ---- sixteen lags at once

fn all_live(energies: &[f64], k: usize) -> bool
    requires { k + 16 ≤ length energies.now }
    ensures { result ≡ true → (j : ℕ) → j < 16 → le (at energies.now (k + j)) energy_floor ≡ false }
{
    for j in 0..16 {
        if energies[k + j] <= ENERGY_FLOOR {
            return false;
        }
    }
    true
}

// One product more for each lag.
fn add_products(x: f64, window: &[f64], from: usize, sums: &mut [f64; 16])
    requires { (from + 16 ≤ length window.now) × (length sums.old ≡ 16) }
    ensures { sums.new ≡ table (λ j. add binary64 (at sums.old j) (mul binary64 x (at window.now (from + j)))) 16 }
{
    for (j, sum) in sums.iter_mut().enumerate() {
        *sum += x * window[from + j];
    }
}

// The sums of lags k to k + 15, each in its own order. Two near values a step: a compiler that could turn the steps of one lag into a vector
// would, and then add one by one; so it makes vectors of the lags.
fn products_of_block(near: &[f64], window: &[f64], frame: usize, k: usize, sums: &mut [f64; 16])
    requires { Inside near.now window.now frame k 16 × (sums.old ≡ zeros 16) }
    ensures { sums.new ≡ table (λ j. products_of near.now window.now frame (k + j)) 16 }
{
    for pair in 0..frame / 2 {
        let i = 2 * pair;
        add_products(near[i], window, k + i, sums);
        let next = i + 1;
        add_products(near[next], window, k + next, sums);
    }
    if frame % 2 == 1 {
        let last = frame - 1;
        add_products(near[last], window, k + last, sums);
    }
}

// The scores of lags k to k + 15, in the place of their energies.
fn score_sums(guesses: &[u16], sums: &[f64; 16], power: f64, k: usize, scores: &mut [f64])
    requires { Table guesses.now × (k + 16 ≤ length scores.old) × (length sums.now ≡ 16) }
    ensures { (f : ℕ → Float → Float) (old : List Float) → ((j : ℕ) → j < 16 → score_by (at sums.now j) power (at old (k + j)) ≡ f (k + j) (at old (k + j))) → Rewritten f old k scores.old → Rewritten f old (k + 16) scores.new }
{
    for (j, &sum) in sums.iter().enumerate() {
        scores[k + j] = score(guesses, sum, power, scores[k + j]);
    }
}

fn score_block(
    guesses: &[u16],
    near: &[f64],
    window: &[f64],
    frame: usize,
    power: f64,
    k: usize,
    scores: &mut [f64],
)
    requires table { Table guesses.now × Inside near.now window.now frame k 16 × (k + 16 ≤ length scores.old) }
    requires by_index { (j : ℕ) → j < 16 → le (at scores.old (k + j)) energy_floor ≡ false }
    ensures { (old : List Float) → Rewritten (score_from near.now window.now frame power) old k scores.old → Rewritten (score_from near.now window.now frame power) old (k + 16) scores.new }
{
    let mut sums = [0.0; 16];
    products_of_block(near, window, frame, k, &mut sums);
    score_sums(guesses, &sums, power, k, scores);
}

// ---- every lag

// One block where none of its lags is flat, else one lag.
fn score_some(
    guesses: &[u16],
    near: &[f64],
    window: &[f64],
    frame: usize,
    power: f64,
    k: usize,
    scores: &mut [f64],
) -> Went
    requires { Table guesses.now × (k < length scores.old) × (frame ≤ length near.now) × (length scores.old + frame ≤ length window.now + 1) }
    ensures { Advanced (score_from near.now window.now frame power) k result.next result.live scores.old scores.new }
{
    if scores.len() - k >= 16 {
        if all_live(scores, k) {
            score_block(guesses, near, window, frame, power, k, scores);
            let next = k + 16;
            return Went { next, live: 16 };
        }
    }
    let lag = score_lag(guesses, near, window, frame, power, k, scores[k]);
    scores[k] = lag.score;
    let next = k + 1;
    Went {
        next,
        live: lag.live,
    }
}

// The scores, in the place of the energies, with the table of first guesses lent: how many lags had their products formed. A turn goes on by one lag or by sixteen, as no `for` does.
fn score_lags_with(
    guesses: &[u16],
    near: &[f64],
    window: &[f64],
    frame: usize,
    power: f64,
    scores: &mut [f64],
) -> u64
    requires { Table guesses.now × (frame ≤ length near.now) × (length scores.old + frame ≤ length window.now + 1) }
    ensures scores { scores.new ≡ table (λ k. score_from near.now window.now frame power k (at scores.old k)) (length scores.old) }
    ensures live { result ≡ above_in scores.old (length scores.old) }
{
    let mut k = 0;
    let mut live = 0;
    while k < scores.len() {
        let went = score_some(guesses, near, window, frame, power, k, scores);
        live = live + went.live;
        k = went.next;
    }
    live
}

// A frame where the bin rate is 1,000, as it is at every rate that is a whole number of kHz.
const USUAL_FRAME: usize = 256;

// The table is made once for all lags. The usual frame has a call of its own: a function with a single caller becomes a part of it, and in one as large as a whole scoring the sixteen sums
// of a block would lie in memory and not in registers.
fn score_lags(near: &[f64], window: &[f64], frame: usize, power: f64, scores: &mut [f64]) -> u64
    requires { (frame ≤ length near.now) × (length scores.old + frame ≤ length window.now + 1) }
    ensures scores { scores.new ≡ table (λ k. score_from near.now window.now frame power k (at scores.old k)) (length scores.old) }
    ensures live { result ≡ above_in scores.old (length scores.old) }
{
    let guesses = first_guesses();
    if frame == USUAL_FRAME {
        return score_lags_with(&guesses, near, window, USUAL_FRAME, power, scores);
    }
    score_lags_with(&guesses, near, window, frame, power, scores)
}

// The window's prefix sums and the score of every lag: how many lags had their products formed. Until they get their values the prefix buffers hold the window as f64 and the near values
// less their mean, and the scores the energies.
pub fn write_scores(
    levels: &[f32],
    window: &[f32],
    prefix: &mut [f64],
    squares: &mut [f64],
    scores: &mut [f64],
) -> u64
    requires { RoomFits levels.now window.now prefix.old squares.old scores.old }
    ensures prefix { prefix.new ≡ prefix_sums window.now }
    ensures squares { squares.new ≡ prefix_squares window.now }
    ensures scores { scores.new ≡ table (score_at levels.now window.now) (length scores.old) }
    ensures live { result ≡ live_lags window.now (length levels.now) (length scores.old) }
{
    let frame = levels.len();
    prefixes(window, prefix, squares);
    write_energies(prefix, squares, frame, scores);
    widen(window, prefix);
    centre(levels, squares);
    let power = near_energy(levels);
    let live = score_lags(squares, prefix, frame, power, scores);
    prefixes(window, prefix, squares);
    live
}
