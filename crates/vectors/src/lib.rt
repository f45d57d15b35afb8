// What the programs that replay stored vectors share: records, little-endian numbers, made-up samples, patterns of floats, and the tally that they write.
#![tactic(auto)]

pub mod buffers; // parts of buffers, and entries that records write
pub mod files; // the records of a file
pub mod patterns; // floats and their bits, and the hash of a buffer
pub mod signals; // the samples of stored calls

ghost use Rattle.std.specs.Prelude.{◌+◌, ◌≤◌, length};

use pipes::told;
use std::io::Stdout;

// Calls tried so far, those of them that the program is about, and those whose answer is another than the one stored. `out`: where it is written.
#[derive(Clone, Copy)]
pub struct Tally {
    pub out: Stdout,
    pub calls: u64,
    pub main: u64,
    pub different: u64,
}

// The little-endian number in the `width` bytes from `at` on.
pub fn number(bytes: &[u8], at: usize, width: usize) -> u64
    requires { at + width ≤ length bytes.now }
{
    bytes[at..at + width]
        .iter()
        .rev()
        .fold(0, |n, b| (n << 8) | u64::from(*b))
}

// The same of four bytes.
pub fn number32(bytes: &[u8], at: usize) -> u32
    requires { at + 4 ≤ length bytes.now }
{
    u32::from_le_bytes([bytes[at], bytes[at + 1], bytes[at + 2], bytes[at + 3]])
}

impl Tally {
    pub fn new(out: Stdout) -> Tally {
        Tally {
            out,
            calls: 0,
            main: 0,
            different: 0,
        }
    }

    // One more call. Of the first five that differ `tell` says which, the one that it is given being counted from 0.
    pub fn met<F: FnOnce(Stdout, u64)>(self, main: bool, same: bool, tell: F) -> Tally
        requires { F.IsAlwaysCallable tell }
    {
        if !same && self.different < 5 {
            tell(self.out, self.calls);
        }
        Tally {
            calls: self.calls.saturating_add(1),
            main: self.main.saturating_add(u64::from(main)),
            different: self.different.saturating_add(u64::from(!same)),
            ..self
        }
    }

    // The same where its number is all that is said of it.
    pub fn saw(self, main: bool, same: bool) -> Tally {
        self.met(main, same, |out, call| {
            told::put(out, b"  differs: call ");
            told::put_number(out, call);
            told::put(out, b"\n");
        })
    }

    fn tried(self, what: &[u8]) {
        told::put(self.out, what);
        told::put(self.out, b": ");
        told::put_number(self.out, self.calls);
        told::put(self.out, b" tried, ");
    }

    fn differed(self) {
        told::put_number(self.out, self.different);
        told::put(self.out, b" different\n");
    }

    // A line of how many were tried and how many differ.
    pub fn report(self, what: &[u8]) {
        self.tried(what);
        self.differed();
    }

    // The same with the number of those that the program is about.
    pub fn report_main(self, what: &[u8], main: &[u8]) {
        self.tried(what);
        told::put_number(self.out, self.main);
        told::put(self.out, b" of them ");
        told::put(self.out, main);
        told::put(self.out, b", ");
        self.differed();
    }
}
