// Replays stored calls of the coarse scan against the answers of the unchanged Rust, and writes how many were tried and how many differ.
// tests/scan/README.md says how the files were made and what a record holds.
#![tactic(auto)]

mod calls; // the calls of the scan

use scan::Scan;
use scan_vectors::buffers::Buffers;
use scan_vectors::records::{Kind, Record};
use scan_vectors::{compare, records, whole};
use std::fs::File;
use std::io::Stdout;
use vectors::Tally;
use vectors::files::Records;

// The call of a record, made, and counted.
fn try_call(
    tally: Tally,
    scan: &mut Scan,
    lent: &mut Buffers,
    full: Option<&File>,
    record: &Record,
) -> Tally {
    let done = calls::called(*scan, lent, record);
    *scan = done.scan;
    let same = whole::same(full, done.scan, lent, record)
        & compare::same(done.scan, lent, done.answer, record);
    tally.saw(records::kind_of(record) == Kind::Score, same)
}

// A file of at most 65,535 calls.
fn try_files(calls: Option<&File>, full: Option<&File>, out: Stdout) -> Tally {
    let mut scan = scan_calls::parts::new_scan(8000, 1);
    let mut lent = Buffers::blank();
    let mut tally = Tally::new(out);
    for record in Records::of(calls, 65535) {
        tally = try_call(tally, &mut scan, &mut lent, full, &record);
    }
    tally
}

fn main(rt: HostRuntime) {
    let calls = vectors::files::open(rt, b"calls");
    let full = vectors::files::open(rt, b"full");
    let tally = try_files(calls.as_ref(), full.as_ref(), rt.stdout());
    tally.report_main(b"calls", b"scored frames");
}
