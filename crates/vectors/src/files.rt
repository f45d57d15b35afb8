// The files of a suite: records of one length, one after the other, and rows of numbers in a record.
ghost use Rattle.std.specs.Iterator.{at_most};
ghost use Rattle.std.specs.Prelude.{◌≡◌};

use pipes::{named, rooms};
use std::fs::{File, OpenOptions};

// A file to read. One that cannot be opened is named on standard error, and has no record.
pub fn open(rt: HostRuntime, path: &[u8]) -> Option<File> {
    match named::opened(rt, OpenOptions::new().read(true), path) {
        Ok(found) => Some(found),
        Err(why) => {
            named::tell(rt.stderr(), path, why);
            None
        }
    }
}

// The whole records of a file that are left, so many at most. They are cut from a room that the file fills again and again: with a read for each record a
// suite took up to three times as long.
#[derive(Drop)]
pub struct Records<'a, const N: usize> {
    from: Option<&'a File>,
    most: u32,
    room: [u8; 65536],
    at: usize,
    end: usize,
}

impl<'a, const N: usize> Records<'a, N> {
    pub fn of(from: Option<&'a File>, most: u32) -> Records<'a, N>
        ensures { result.most ≡ most }
    {
        Records {
            from,
            most,
            room: rooms::large(),
            at: 0,
            end: 0,
        }
    }

    // A record that no room holds is read by itself.
    fn read(&self) -> Option<[u8; N]> {
        let mut record = [0u8; N];
        let n = rooms::fill(self.from, &mut record);
        if n == N { Some(record) } else { None }
    }

    // The record that stands next in the room.
    fn cut(&self) -> Option<[u8; N]> {
        let found = self.room.get(self.at..self.end)?.get(..N)?;
        let mut record = [0u8; N];
        record.copy_from_slice(found);
        Some(record)
    }

    // Fills the room with whole records, as many as it holds.
    fn refill(&mut self)
        ensures { self.new.most ≡ self.old.most }
    {
        let room = self.room.len();
        let over = if N == 0 { 0 } else { room % N };
        self.at = 0;
        self.end = rooms::fill(self.from, &mut self.room[..room - over]);
    }
}

impl<'a, const N: usize> Iterator for Records<'a, N> {
    type Item = [u8; N];

    ghost remaining = { λ s. at_most s.most };

    fn next(&mut self) -> Option<[u8; N]> {
        if self.most == 0 {
            return None;
        }
        self.most -= 1;
        if self.room.len() < N {
            return self.read();
        }
        if self.end.saturating_sub(self.at) < N {
            self.refill();
        }
        let record = self.cut()?;
        self.at = self.at.saturating_add(N);
        Some(record)
    }

    // The one that every iterator has asks for an N below 2^63.
    fn size_hint(&self) -> (usize, Option<usize>) {
        (0, Some(self.most as usize))
    }
}

// A number as a record has it: in four bytes, or in eight.
#[derive(Clone, Copy)]
pub enum Stands {
    InFour(u64),
    InEight(u64),
}

impl Stands {
    // Where the number stands at a place of a record, the place behind it.
    fn behind(self, record: &[u8], at: usize) -> Option<usize> {
        let (n, width) = match self {
            Stands::InFour(n) => (n, 4),
            Stands::InEight(n) => (n, 8),
        };
        let found = record.get(at..)?.get(..width)?;
        if crate::number(found, 0, width) == n {
            return at.checked_add(width);
        }
        None
    }
}

// Whether these numbers stand in a record, one behind the other, from a place on.
pub fn has_row(record: &[u8], from: usize, row: &[Stands]) -> bool {
    row.iter()
        .try_fold(from, |at, number| number.behind(record, at))
        .is_some()
}
