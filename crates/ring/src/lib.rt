// The far-end reference ring. Its samples are addressed by an absolute index that never wraps, in a buffer that the host lends with each call.
// The buffer's length is the capacity. Samples are bit patterns, so that any bits are kept as they are.
// No call has a `requires`: a bad call is refused by number and hands back the ring that it was given.
#![tactic(auto)]

ghost use Rattle.std.specs.Prelude.{◌≡◌, ◌<◌, ◌≤◌, ◌+◌, ◌%◌, length, set};
ghost use Rattle.answers.specs.Numbers.{limit};
ghost use Rattle.ring.specs.Ring.{changed, made, ring_refusal, push_refusal, stored, pushed, pushed_buf, gotten, next_abs, capacity_of, dropped_of, cleared};

use answers::{Change, Count};

#[derive(Clone, Copy)]
pub struct Ring {
    // The number of samples ever pushed, which is also the absolute index of the next one: `next_abs` of the Rust.
    pub accepted: u64,
}

#[derive(Clone, Copy)]
pub struct Changed {
    pub ring: Ring,
    pub answer: Change,
}

// Where in the lent buffer a sample is.
#[derive(Clone, Copy)]
pub enum Kept {
    Refused(u8),
    NotKept,
    At(usize),
}

impl Ring {
    // Answers a call that changes the ring to `next`; if it is refused, hands this ring back.
    fn changed(self, refusal: u8, next: Ring) -> Changed
        ensures { result ≡ changed self refusal next }
    {
        if refusal != 0 {
            return Changed {
                ring: self,
                answer: Change::Refused(refusal),
            };
        }
        Changed {
            ring: next,
            answer: Change::Done,
        }
    }

    // Makes a ring that retains the most recent `buf.len()` samples. Writes nothing: no query answers a slot that was not pushed to.
    pub fn new(buf: &[u32]) -> Changed
        ensures { result ≡ made (length buf.now) }
    {
        let empty = Ring { accepted: 0 };
        empty.changed(empty.refusal(buf.len()), empty)
    }

    // Gives the number with which every call refuses this ring, or 0 for none.
    fn refusal(self, capacity: usize) -> u8
        ensures { result ≡ ring_refusal self capacity }
    {
        if capacity == 0 {
            return answers::WRONG_LENGTH;
        }
        if self.accepted > answers::LIMIT {
            return answers::BROKEN_STATE;
        }
        0
    }

    fn push_refusal(self, capacity: usize, count: usize) -> u8
        ensures { result ≡ push_refusal self capacity count }
    {
        let earlier = self.refusal(capacity);
        if earlier != 0 {
            return earlier;
        }
        if count as u64 > answers::LIMIT - self.accepted {
            return answers::TOO_LARGE;
        }
        0
    }

    // Appends `samples`, overwriting the oldest retained ones once the ring is full.
    pub fn push(self, buf: &mut [u32], samples: &[u32]) -> Changed
        ensures { (result ≡ pushed self (length buf.old) (length samples.now)) × (buf.new ≡ pushed_buf self buf.old samples.now) }
    {
        let number = self.push_refusal(buf.len(), samples.len());
        if number != 0 {
            return Changed {
                ring: self,
                answer: Change::Refused(number),
            };
        }
        store_all(buf, self.accepted, samples);
        Changed {
            ring: Ring {
                accepted: self.accepted + samples.len() as u64,
            },
            answer: Change::Done,
        }
    }

    // Finds the place in the buffer of the sample at absolute index `at`, unless it was dropped or has not been pushed yet.
    pub fn get(self, buf: &[u32], at: u64) -> Kept
        ensures { result ≡ gotten self (length buf.now) at }
    {
        let refusal = self.refusal(buf.len());
        if refusal != 0 {
            return Kept::Refused(refusal);
        }
        if at < self.accepted.saturating_sub(buf.len() as u64) || at >= self.accepted {
            return Kept::NotKept;
        }
        Kept::At(slot(buf.len(), at))
    }

    // Reports the absolute index of the next sample.
    pub fn next_abs(self, buf: &[u32]) -> Count
        ensures { result ≡ next_abs self (length buf.now) }
    {
        Count::of(self.refusal(buf.len()), self.accepted)
    }

    // Reports the capacity: how many samples back from the next one the ring keeps.
    pub fn capacity(self, buf: &[u32]) -> Count
        ensures { result ≡ capacity_of self (length buf.now) }
    {
        Count::of(self.refusal(buf.len()), buf.len() as u64)
    }

    // Reports how many samples were overwritten since the making or the last `clear`.
    pub fn dropped(self, buf: &[u32]) -> Count
        ensures { result ≡ dropped_of self (length buf.now) }
    {
        let oldest = self.accepted.saturating_sub(buf.len() as u64);
        Count::of(self.refusal(buf.len()), oldest)
    }

    // Returns the ring to the state in which it was made: nothing is retained.
    pub fn clear(self, buf: &[u32]) -> Changed
        ensures { result ≡ cleared self (length buf.now) }
    {
        self.changed(self.refusal(buf.len()), Ring { accepted: 0 })
    }
}

// Finds where the sample of an absolute index is.
fn slot(capacity: usize, at: u64) -> usize
    requires { 0 < capacity }
    ensures { (result ≡ at % capacity) × (result < capacity) }
{
    (at % capacity as u64) as usize
}

// Writes the samples to their slots, from absolute index `next` on.
fn store_all(buf: &mut [u32], next: u64, samples: &[u32])
    requires { (0 < length buf.old) × (next + length samples.now ≤ limit) }
    ensures { buf.new ≡ stored next buf.old samples.now }
{
    for (i, &sample) in samples.iter().enumerate() {
        let at = slot(buf.len(), next + i as u64);
        buf[at] = sample;
    }
}
