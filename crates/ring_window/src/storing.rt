// Puts floats into the buffer, each at its slot.
ghost use Rattle.std.specs.Prelude.{◌≡◌, map, ◌+◌, ◌≤◌, ◌<◌, ◌%◌, length};
ghost use Rattle.std.specs.Float.{binary32};
ghost use Rattle.std.specs.Float.Ieee.{to_bits};
ghost use Rattle.answers.specs.Numbers.{limit};
ghost use Rattle.ring.specs.Ring.{stored};

// Gives the slot after another one.
fn after(slot: usize, capacity: usize) -> usize
    requires { slot < capacity }
    ensures { result ≡ (slot + 1) % capacity }
{
    if slot + 1 == capacity {
        return 0;
    }
    slot + 1
}

// Writes the samples to their slots, from absolute index `next` on. The ring's own stores patterns as they are: one function would take a closure for the pattern of a float.
pub fn store_all(buf: &mut [u32], next: u64, samples: &[f32])
    requires { (0 < length buf.old) × (next + length samples.now ≤ limit) }
    ensures { buf.new ≡ stored next buf.old (map (to_bits binary32) samples.now) }
{
    let capacity = buf.len();
    let mut slot = (next % capacity as u64) as usize;
    for &sample in samples {
        buf[slot] = floats::bits::pattern32(sample);
        slot = after(slot, capacity);
    }
}
