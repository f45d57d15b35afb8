// Replays stored calls of the ring against the answers of the unchanged Rust, and writes how many were tried and how many differ.
// tests/ring/README.md says how the file was made and what a record holds.
#![tactic(auto)]

use answers::Count;
use ring::{Kept, Ring};
use std::fs::File;
use std::io::Stdout;
use vectors::Tally;
use vectors::buffers::first_mut;
use vectors::files::Records;
use vectors::signals::word;

type Record = [u8; 32];

// The call of a record: a ring is made with a capacity, samples are pushed, one is asked for (`stored`: its bits, if it is kept), the ring is cleared, or its count is set.
#[derive(Clone, Copy)]
enum Call {
    Make(u32),
    Push(Push),
    Get { index: u64, stored: Option<u32> },
    Clear,
    Set(u64),
    Nothing,
}

// So many samples, which their seed and mask make.
#[derive(Clone, Copy)]
struct Push {
    count: u32,
    seed: u32,
    mask: u32,
}

fn call_of(record: &Record) -> Call {
    let four = vectors::number32(record, 4);
    let eight = vectors::number(record, 8, 8);
    match record[0] {
        1 => Call::Make(four),
        2 => Call::Push(Push {
            count: four,
            seed: vectors::number32(record, 8),
            mask: vectors::number32(record, 12),
        }),
        3 => Call::Get {
            index: eight,
            stored: (record[1] == 1).then_some(four),
        },
        4 => Call::Clear,
        5 => Call::Set(eight),
        _ => Call::Nothing,
    }
}

// ---- the ring after a call

fn made(buf: &mut [u32]) -> Ring {
    buf.fill(0);
    Ring::new(buf).ring
}

// A push of as many samples as the slice holds.
fn pushed(ring: Ring, buf: &mut [u32], samples: &mut [u32], push: Push) -> Ring {
    for (n, sample) in samples.iter_mut().enumerate() {
        *sample = word(push.seed, n as u64) | push.mask;
    }
    ring.push(buf, samples).ring
}

fn called(ring: Ring, buf: &mut [u32], samples: &mut [u32], call: Call) -> Ring {
    match call {
        Call::Make(_) => made(buf),
        Call::Push(push) => pushed(ring, buf, first_mut(samples, push.count as u64), push),
        Call::Clear => ring.clear(buf).ring,
        Call::Set(accepted) => Ring { accepted },
        Call::Get { .. } | Call::Nothing => ring,
    }
}

// ---- whether it is as a record says

fn same_count(c: Count, n: u64) -> bool {
    match c {
        Count::Refused(_) => false,
        Count::Is(m) => m == n,
    }
}

// Whether a query finds the stored bits, or nothing where nothing was kept.
fn same_kept(k: Kept, buf: &[u32], stored: Option<u32>) -> bool {
    match k {
        Kept::Refused(_) => false,
        Kept::NotKept => stored.is_none(),
        Kept::At(place) => stored.is_some() && buf.get(place).copied() == stored,
    }
}

// Whether the query of a record answers as it says; another call asks none.
fn same_query(ring: Ring, buf: &[u32], call: Call) -> bool {
    match call {
        Call::Get { index, stored } => same_kept(ring.get(buf, index), buf, stored),
        _ => true,
    }
}

// Whether the ring counts as a record says.
fn same_counts(ring: Ring, buf: &[u32], record: &Record) -> bool {
    same_count(ring.next_abs(buf), vectors::number(record, 16, 8))
        && same_count(ring.dropped(buf), vectors::number(record, 24, 8))
        && same_count(ring.capacity(buf), buf.len() as u64)
}

// ---- all calls

// The ring, and what the host lends it: of the buffer as many places as `capacity` says, and samples to push.
#[derive(Drop)]
struct Host {
    ring: Ring,
    capacity: u32,
    buffer: [u32; 4096],
    samples: [u32; 16384],
}

impl Host {
    // The call of a record, and whether the ring is then as the record says.
    fn same_after(&mut self, call: Call, record: &Record) -> bool {
        if let Call::Make(capacity) = call {
            self.capacity = capacity;
        }
        let buf = first_mut(&mut self.buffer, self.capacity as u64);
        let ring = called(self.ring, buf, &mut self.samples, call);
        self.ring = ring;
        same_query(ring, buf, call) && same_counts(ring, buf, record)
    }
}

// A file of at most 131,072 calls.
fn try_file(from: &File, out: Stdout) -> Tally {
    let mut host = Host {
        ring: Ring { accepted: 0 },
        capacity: 0,
        buffer: [0; 4096],
        samples: [0; 16384],
    };
    let mut tally = Tally::new(out);
    for record in Records::of(Some(from), 131_072) {
        let call = call_of(&record);
        tally = tally.saw(
            matches!(call, Call::Get { .. }),
            host.same_after(call, &record),
        );
    }
    tally
}

fn main(rt: HostRuntime) {
    if let Some(calls) = vectors::files::open(rt, b"calls") {
        let tally = try_file(&calls, rt.stdout());
        tally.report_main(b"calls", b"queries");
    }
}
