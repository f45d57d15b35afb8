// Whether a scan and its buffers stand as a record says.
use crate::buffers;
use crate::buffers::Buffers;
use crate::records::{OTHER, Record};
use answers::{Count, Flag};
use floats::bits;
use scan::{Found, LevelReport, Region, RegionReport, Scan};
use scan_calls::reports;
use vectors::buffers::hash_first;
use vectors::files::Stands::{InEight, InFour};
use vectors::files::{Stands, has_row};

// ---- the state

fn far_row(scan: Scan) -> [Stands; 5] {
    let far = scan.far;
    [
        InFour(bits::pattern32(scan.verdict.last) as u64),
        InEight(far.next),
        InEight(bits::pattern64(far.sum)),
        InEight(far.accepted),
        InFour(far.count),
    ]
}

fn near_row(scan: Scan) -> [Stands; 5] {
    let near = scan.near;
    [
        InFour(near.len),
        InEight(bits::pattern64(near.sum)),
        InEight(near.first),
        InFour(near.count),
        InFour(scan.verdict.banked as u64),
    ]
}

fn same_state(scan: Scan, record: &Record) -> bool {
    has_row(record, 44, &far_row(scan))
        && has_row(record, 76, &near_row(scan))
        && vectors::number(record, 160, 8) == scan.near.last
}

// ---- the reports

// A flag that is set, as a record has it.
fn flag(report: Flag, k: u64) -> u64 {
    match report {
        Flag::Refused(_) => OTHER,
        Flag::Is(is) => if is { k } else { 0 },
    }
}

fn count(report: Count) -> u64 {
    match report {
        Count::Refused(_) => OTHER,
        Count::Is(n) => n,
    }
}

fn level(report: LevelReport) -> u64 {
    match report {
        LevelReport::Refused(_) => OTHER,
        LevelReport::Is(x) => bits::pattern32(x) as u64,
    }
}

// The region as a record has it: its flag, its delay and its correlation.
#[derive(Clone, Copy)]
struct Told {
    flag: u64,
    delay: u64,
    correlation: u64,
}

fn place(region: Region) -> Told {
    let delay = region.delay;
    Told {
        flag: 4,
        delay: delay.0,
        correlation: bits::pattern64(region.correlation),
    }
}

fn region(report: RegionReport) -> Told {
    match report {
        RegionReport::Refused(_) => Told {
            flag: OTHER,
            delay: 0,
            correlation: 0,
        },
        RegionReport::Is(found) => match found {
            Found::Nothing => Told {
                flag: 0,
                delay: 0,
                correlation: 0,
            },
            Found::At(region) => place(region),
        },
    }
}

fn flags(scan: Scan) -> u64 {
    flag(reports::beyond_ceiling(scan), 1)
        | flag(reports::exhausted(scan), 2)
        | flag(reports::finished(scan), 8)
}

fn same_reports(scan: Scan, record: &Record) -> bool {
    let told = region(reports::region(scan));
    let row = [
        InFour(count(reports::frames(scan))),
        InFour(level(reports::correlation(scan))),
        InEight(told.delay),
        InEight(told.correlation),
    ];
    told.flag | flags(scan) == u64::from(record[2]) & 0xef && has_row(record, 104, &row)
}

// ---- the buffers, by their hashes

// Of the levels those that the frame under way has.
fn hashes(scan: Scan, b: &Buffers) -> [Stands; 7] {
    let lengths = buffers::lengths_of(scan.geometry.rate, scan.geometry.ceiling);
    [
        InFour(hash_first(&b.envelope, lengths.envelope)),
        InFour(hash_first(&b.levels, scan.near.len)),
        InFour(hash_first(&b.window, lengths.window)),
        InFour(hash_first(&b.prefix, lengths.sums)),
        InFour(hash_first(&b.squares, lengths.sums)),
        InFour(hash_first(&b.scores, lengths.lags)),
        InFour(hash_first(&b.sums, lengths.lags)),
    ]
}

pub fn same(scan: Scan, buffers: &Buffers, answer: u64, record: &Record) -> bool {
    answer == u64::from(record[1])
        && has_row(record, 128, &hashes(scan, buffers))
        && same_state(scan, record)
        && same_reports(scan, record)
}
