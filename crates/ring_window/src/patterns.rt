// Writes a window as patterns.
ghost use Rattle.std.specs.Prelude.{◌≡◌, ◌+◌, ◌≤◌, length, drop};
ghost use Rattle.std.proofs.Math.Seq.{paste};
ghost use Rattle.ring_window.specs.Cuts.{Fitting, pieces};

use crate::Cut;
use crate::blanks::blank;

// Copies n patterns of the buffer, from one slot on. (`copy_from_slice` would be a call of memmove.)
fn copy(window: &mut [u32], to: usize, buf: &[u32], slot: usize, n: usize)
    requires { (to + n ≤ length window.old) × (slot + n ≤ length buf.now) }
    ensures { window.new ≡ paste window.old to (drop slot buf.now) n }
{
    for i in 0..n {
        window[to + i] = buf[slot + i];
    }
}

// The same stands in values.rt: patterns are copied as a block, floats are made one by one. One function would take a closure for that, and its contract one more fact about it.
pub fn fill(window: &mut [u32], buf: &[u32], c: Cut)
    requires { Fitting (length buf.now) (length window.old) c }
    ensures { window.new ≡ pieces c buf.now }
{
    let around = c.head + c.run;
    let end = around + c.wrapped;
    blank(window, 0, c.head, 0);
    copy(window, c.head, buf, c.slot, c.run);
    copy(window, around, buf, 0, c.wrapped);
    blank(window, end, c.tail, 0);
}
