// Cuts a window where the ring begins and ends.
ghost use Rattle.std.specs.Prelude.{◌≡◌, ◌+◌, ◌-◌, ◌≤◌, ◌<◌, min};
ghost use Rattle.answers.specs.Numbers.{limit};
ghost use Rattle.ring_window.specs.Cuts.{Cuts};

use crate::Cut;

// Counts the places of a window of n that lie before an index.
fn places_before(at: u64, back: u64, index: u64, n: u64) -> u64
    ensures { result ≡ min n (back + index - at) }
{
    if back <= at {
        return n.min(index.saturating_sub(at - back));
    }
    let before = back - at;
    if n <= before {
        return n;
    }
    before + (n - before).min(index)
}

// Gives the index of a place that does not lie before the stream's first sample.
fn index_of(at: u64, back: u64, place: u64) -> u64
    requires { (back ≤ at + place) × (at + place - back ≤ limit) }
    ensures { result ≡ at + place - back }
{
    if back <= at {
        return at - back + place;
    }
    place - (back - at)
}

pub fn cut(accepted: u64, capacity: usize, at: u64, back: u64, n: usize) -> Cut
    requires { (0 < capacity) × (accepted ≤ limit) }
    ensures { Cuts accepted capacity at back n result }
{
    let slots = capacity as u64;
    let oldest = accepted.saturating_sub(slots);
    let head = places_before(at, back, oldest, n as u64);
    let end = places_before(at, back, accepted, n as u64);
    if end <= head {
        return Cut {
            head: head as usize,
            slot: 0,
            run: 0,
            wrapped: 0,
            tail: n - end as usize,
        };
    }
    let slot = index_of(at, back, head) % slots;
    let run = (end - head).min(slots - slot);
    Cut {
        head: head as usize,
        slot: slot as usize,
        run: run as usize,
        wrapped: (end - head - run) as usize,
        tail: n - end as usize,
    }
}
