// Finds the whole root of a number from 2^52 to 2^54, by a first guess from a constant table and two steps of Newton's method.
//
// The compiler writes a constant array onto the stack wherever it is used. So the table is made once, by `first_guesses`, and lent to every
// root that is taken with it.
#![tactic(auto)]

ghost use Rattle.std.specs.Prelude.{◌≡◌, ◌+◌, ◌*◌, ◌/◌, ◌^◌, ◌<◌, ◌≤◌};
ghost use Rattle.root_table.specs.Guesses.{Table, Serves, Near, IsRoot};

mod guesses;

use guesses::GUESSES;

// Makes the table. Its rule is tested here, at all entries.
pub fn first_guesses() -> [u16; 1024]
    ensures { Table result }
{
    GUESSES
}

// Finds the place in the table of the guess for m.
fn place(m: u64) -> usize
    requires { (2 ^ 52 ≤ m) × (m < 2 ^ 54) }
    ensures { (result < 1024) × Serves result m }
{
    ((m - 0x10_0000_0000_0000) / 0xc00_0000_0000) as usize
}

fn wide(x: u16) -> u64
    ensures { (result ≡ x) × (result < 2 ^ 16) }
{
    x as u64
}

// Gives a number within 2^16 of the root of m.
fn guess(guesses: &[u16], m: u64) -> u64
    requires { (2 ^ 52 ≤ m) × (m < 2 ^ 54) × Table guesses.now }
    ensures { Near m result }
{
    let i = place(m);
    wide(guesses[i]) * 0x800
}

// Takes one step of Newton's method.
fn newton(m: u64, g: u64) -> u64
    requires { (0 < g) × (g < 2 ^ 32) × (m < 2 ^ 54) }
    ensures { result ≡ (g + m / g) / 2 }
{
    (g + m / g) / 2
}

// Finds the whole root of m. After two steps the number is the root or one more.
pub fn whole_root(guesses: &[u16], m: u64) -> u64
    requires { (2 ^ 52 ≤ m) × (m < 2 ^ 54) × Table guesses.now }
    ensures { IsRoot m result }
{
    let g = guess(guesses, m);
    let a = newton(m, g);
    let r = newton(m, a);
    if m < r * r {
        return r - 1;
    }
    r
}
