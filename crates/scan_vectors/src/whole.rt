// Whether buffers stand as the file `full` has them, element by element. All that belongs to a record is read, also after a difference.
use crate::buffers;
use crate::buffers::Buffers;
use crate::records::Record;
use scan::Scan;
use std::fs::File;
use vectors::buffers::first;
use vectors::patterns;
use vectors::patterns::Stored;

fn same_first<T: Stored>(full: Option<&File>, xs: &[T], n: u64) -> bool {
    first(xs, n).iter().fold(
        true,
        |same, x| same & (patterns::next::<T>(full) == x.pattern()),
    )
}

fn same_buffers(full: Option<&File>, scan: Scan, b: &Buffers) -> bool {
    let lengths = buffers::lengths_of(scan.geometry.rate, scan.geometry.ceiling);
    same_first(full, &b.window, lengths.window)
        & same_first(full, &b.prefix, lengths.sums)
        & same_first(full, &b.squares, lengths.sums)
        & same_first(full, &b.scores, lengths.lags)
        & same_first(full, &b.sums, lengths.lags)
}

// Whether they do where a record says that they stand there.
pub fn same(full: Option<&File>, scan: Scan, buffers: &Buffers, record: &Record) -> bool {
    record[2] & 16 == 0 || same_buffers(full, scan, buffers)
}
