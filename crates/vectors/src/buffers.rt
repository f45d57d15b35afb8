// Parts of buffers with their hashes, and entries that a record writes into one.
ghost use Rattle.std.specs.Prelude.{◌≤◌};

use crate::patterns;
use crate::patterns::Stored;
use std::fs::File;

// n, or `most` where n is larger.
pub fn at_most(n: u64, most: usize) -> usize
    ensures { result ≤ most }
{
    n.min(most as u64) as usize
}

// The first n entries, or all where there are fewer.
pub fn first<T>(xs: &[T], n: u64) -> &[T] {
    let m = at_most(n, xs.len());
    &xs[..m]
}

pub fn first_mut<T>(xs: &mut [T], n: u64) -> &mut [T] {
    let m = at_most(n, xs.len());
    &mut xs[..m]
}

// The hash of the first n elements.
pub fn hash_first<T: Stored>(xs: &[T], n: u64) -> u64 {
    patterns::hash(first(xs, n))
}

// Writes the float with these bits. A place past the end is none.
pub fn store<T: Stored>(out: &mut [T], place: u32, pattern: u64) {
    if let Some(x) = out.get_mut(place as usize) {
        *x = T::of(pattern);
    }
}

// The next entries of a file.
pub fn read<T: Stored>(from: Option<&File>, out: &mut [T]) {
    for x in out.iter_mut() {
        *x = T::of(patterns::next::<T>(from));
    }
}
