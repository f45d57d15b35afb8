// Writes the missing places of a window.
ghost use Rattle.std.specs.Prelude.{◌≡◌, ◌+◌, ◌≤◌, length, replicate};
ghost use Rattle.std.proofs.Math.Seq.{paste};

// Writes n times x, from one place on. `fill` would ask that a clone of x cannot fail, which of a type parameter is not known.
pub fn blank<T: Copy>(window: &mut [T], from: usize, n: usize, x: T)
    requires { from + n ≤ length window.old }
    ensures { window.new ≡ paste window.old from (replicate n x) n }
{
    for i in 0..n {
        window[from + i] = x;
    }
}
