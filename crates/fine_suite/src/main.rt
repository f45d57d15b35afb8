// Replays stored calls of the fine stage against the answers of the unchanged Rust, and writes how many were tried and how many differ.
// tests/fine/README.md says how the files were made and what a record holds.
#![tactic(auto)]

mod records; // a record, and its call
mod host; // the buffers that the host holds
mod calls; // the calls of the fine stage up to the peak rule
mod peak; // the peak rule
mod compare; // the state, the lock and the buffers after a call

use fine::Fine;
use host::Host;
use records::Record;
use std::fs::File;
use std::io::Stdout;
use vectors::Tally;
use vectors::files::Records;

// The call of a record, made, and counted.
fn try_call(
    tally: Tally,
    fine: &mut Fine,
    host: &mut Host,
    arrays: Option<&File>,
    record: &Record,
) -> Tally {
    let call = records::call_of(record);
    host.write(call);
    let done = peak::after(calls::called(*fine, host, call), arrays, host, call);
    *fine = done.fine;
    tally.saw(done.lock.is_some(), compare::same(done, host, record))
}

// A file of at most 65,536 calls.
fn try_files(calls: &File, arrays: &File, out: Stdout) -> Tally {
    let mut fine = Fine::new(1).fine;
    let mut host = Host::blank();
    let mut tally = Tally::new(out);
    for record in Records::of(Some(calls), 65536) {
        tally = try_call(tally, &mut fine, &mut host, Some(arrays), &record);
    }
    tally
}

// Both files, or the first that is missing is named.
fn opened(rt: HostRuntime) -> Option<(File, File)> {
    let calls = vectors::files::open(rt, b"calls")?;
    let arrays = vectors::files::open(rt, b"arrays")?;
    Some((calls, arrays))
}

fn main(rt: HostRuntime) {
    if let Some((calls, arrays)) = opened(rt) {
        let tally = try_files(&calls, &arrays, rt.stdout());
        tally.report_main(b"calls", b"locks");
    }
}
