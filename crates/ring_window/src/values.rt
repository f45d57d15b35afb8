// Writes a window as floats.
ghost use Rattle.std.specs.Prelude.{◌≡◌, map, ◌+◌, ◌≤◌, length, drop};
ghost use Rattle.std.proofs.Math.Seq.{paste};
ghost use Rattle.std.specs.Float.{binary32};
ghost use Rattle.std.specs.Float.Ieee.{of_bits};
ghost use Rattle.ring_window.specs.Cuts.{Fitting, pieces};

use crate::Cut;
use crate::blanks::blank;

// Copies n samples of the buffer, from one slot on.
fn copy(window: &mut [f32], to: usize, buf: &[u32], slot: usize, n: usize)
    requires { (to + n ≤ length window.old) × (slot + n ≤ length buf.now) }
    ensures { window.new ≡ paste window.old to (map (of_bits binary32) (drop slot buf.now)) n }
{
    for (i, &pattern) in buf[slot..slot + n].iter().enumerate() {
        window[to + i] = floats::bits::float32(pattern);
    }
}

pub fn fill(window: &mut [f32], buf: &[u32], c: Cut)
    requires { Fitting (length buf.now) (length window.old) c }
    ensures { window.new ≡ map (of_bits binary32) (pieces c buf.now) }
{
    let around = c.head + c.run;
    let end = around + c.wrapped;
    blank(window, 0, c.head, 0.0);
    copy(window, c.head, buf, c.slot, c.run);
    copy(window, around, buf, 0, c.wrapped);
    blank(window, end, c.tail, 0.0);
}
