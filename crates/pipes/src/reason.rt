// Why a call of the system failed, as the system numbers it, so that it can be kept beside what failed and said later.
ghost use Rattle.std.specs.Prelude.{◌≤◌, length};

use std::io::{Cursor, Error, ErrorKind, Write};

#[derive(Clone, Copy)]
pub struct Reason {
    code: i32,
}

// What a name that is no text comes to, a read of no file, and an error that is none of the system's.
const NO_TEXT: i32 = 84;

const NO_FILE: i32 = 9;

const OTHER: i32 = 5;

// No call has failed.
pub fn none() -> Reason {
    Reason { code: 0 }
}

// A file's name is not UTF-8, and std opens no other.
pub fn no_text() -> Reason {
    Reason { code: NO_TEXT }
}

// No file is open.
pub fn no_file() -> Reason {
    Reason { code: NO_FILE }
}

pub fn of(error: &Error) -> Reason {
    Reason {
        code: error.raw_os_error().unwrap_or(OTHER),
    }
}

// What stands behind a call: why it failed, or what stood before it.
pub fn behind(before: Reason, done: Result<(), Reason>) -> Reason {
    done.err().unwrap_or(before)
}

// Whether a write failed because its reader has gone away, which is no failure to speak of.
pub fn is_unread(reason: Reason) -> bool {
    Error::from_raw_os_error(reason.code).kind() == ErrorKind::BrokenPipe
}

// Where std's text of an error goes on with the error's number.
fn words(text: &[u8]) -> usize
    ensures { result ≤ length text.now }
{
    let number = b" (os error ".as_slice();
    text.windows(number.len())
        .position(|part| part == number)
        .unwrap_or(text.len())
}

// Writes the system's words for it, as far as there is room, and tells how many bytes they are.
pub fn write(reason: Reason, text: &mut [u8]) -> usize
    ensures { result ≤ length text.new }
{
    let error = Error::from_raw_os_error(reason.code);
    let mut to = Cursor::new(&mut *text);
    let _ = write!(to, "{error}");
    words(text)
}
