// Files by name, and what is said of them on standard error.
ghost use Rattle.std.specs.Prelude.{◌≤◌, length};

use crate::reason;
use crate::reason::Reason;
use std::env::{Env, FillError};
use std::fs::{File, OpenOptions};
use std::io::{Print, Read, Seek, SeekFrom, Stderr};
use std::{fs, io};

// Text that is said is not asked for whether it came.
pub fn put(err: Stderr, text: &[u8]) {
    let _ = Print::write_all(&err, text);
}

// "TOOL: text"
pub fn say(err: Stderr, tool: &[u8], text: &[u8]) {
    put(err, tool);
    put(err, b": ");
    put(err, text);
    put(err, b"\n");
}

// "FILE: reason"
pub fn tell(err: Stderr, file: &[u8], why: Reason) {
    let mut text = [0u8; 256];
    let n = reason::write(why, &mut text);
    put(err, file);
    put(err, b": ");
    put(err, &text[..n]);
    put(err, b"\n");
}

// "TOOL: FILE: reason"
pub fn fail(err: Stderr, tool: &[u8], file: &[u8], why: Reason) {
    put(err, tool);
    put(err, b": ");
    tell(err, file, why);
}

// How many words the program was started with, its own name among them.
pub fn words(rt: &impl Env) -> usize {
    for n in 0..usize::MAX {
        if let Err(FillError::NotPresent) = rt.arg(n, &mut []) {
            return n;
        }
    }
    usize::MAX
}

// Argument i, whole, at the start of `name`. One that is too long is not cut short, for that would name another file.
pub fn argument(rt: HostRuntime, tool: &[u8], i: usize, name: &mut [u8]) -> usize
    ensures { result ≤ length name.new }
{
    match rt.arg(i, name) {
        Ok(n) => n,
        Err(_) => {
            say(rt.stderr(), tool, b"a file's name is too long");
            0
        }
    }
}

// The name as std takes it.
fn text_of(name: &[u8]) -> Result<&str, Reason> {
    std::str::from_utf8(name).map_err(|_| reason::no_text())
}

// A file opened as is asked for, or why not.
pub fn opened(rt: HostRuntime, how: &OpenOptions, file: &[u8]) -> Result<File, Reason> {
    let path = text_of(file)?;
    how.open(&rt, path).map_err(|e| reason::of(&e))
}

// A file opened as is asked for, or none, and why is said.
fn opened_or_said(rt: HostRuntime, tool: &[u8], how: &OpenOptions, file: &[u8]) -> Option<File> {
    match opened(rt, how, file) {
        Ok(found) => Some(found),
        Err(why) => {
            fail(rt.stderr(), tool, file, why);
            None
        }
    }
}

// A read of no bytes.
fn readable(file: &File) -> io::Result<usize> {
    let mut from = file;
    from.read(&mut [])
}

// A file to be read, or none, and why is said. A folder can be opened, but not read: a read of no bytes finds that out.
pub fn open(rt: HostRuntime, tool: &[u8], file: &[u8]) -> Option<File> {
    let found = opened_or_said(rt, tool, OpenOptions::new().read(true), file)?;
    match readable(&found) {
        Ok(_) => Some(found),
        Err(e) => {
            fail(rt.stderr(), tool, file, reason::of(&e));
            None
        }
    }
}

// A new file to be written, or none, and why is said.
pub fn create(rt: HostRuntime, tool: &[u8], file: &[u8]) -> Option<File> {
    opened_or_said(
        rt,
        tool,
        OpenOptions::new().write(true).create_new(true),
        file,
    )
}

// A file to be written, which is emptied where it was there, or none, and why is said.
pub fn overwrite(rt: HostRuntime, tool: &[u8], file: &[u8]) -> Option<File> {
    opened_or_said(
        rt,
        tool,
        OpenOptions::new().write(true).create(true).truncate(true),
        file,
    )
}

// A new folder, or why not.
fn folder_made(rt: HostRuntime, folder: &[u8]) -> Result<(), Reason> {
    let path = text_of(folder)?;
    fs::create_dir(&rt, path).map_err(|e| reason::of(&e))
}

// A new folder, and why there is none is said.
pub fn make_folder(rt: HostRuntime, tool: &[u8], folder: &[u8]) -> bool {
    match folder_made(rt, folder) {
        Ok(()) => true,
        Err(why) => {
            fail(rt.stderr(), tool, folder, why);
            false
        }
    }
}

// The file is there no more, where that could be done.
pub fn remove(rt: HostRuntime, file: &[u8]) {
    if let Ok(path) = text_of(file) {
        let _ = fs::remove_file(&rt, path);
    }
}

// Where the next read of a file begins.
fn place_of(file: &File, to: SeekFrom) -> Result<u64, Reason> {
    let mut at = file;
    at.seek(to).map_err(|e| reason::of(&e))
}

// Whether a file can be read twice: a pipe cannot, and why is told.
pub fn seekable(file: &File) -> Result<(), Reason> {
    place_of(file, SeekFrom::Current(0))?;
    Ok(())
}

// The next read of a file begins at that place.
pub fn go_to(file: &File, place: u64) -> Result<(), Reason> {
    if place < 0x8000_0000_0000_0000 {
        place_of(file, SeekFrom::Start(place))?;
        return Ok(());
    }
    Err(reason::none())
}

// Its length. The next read begins at its end.
pub fn length_of(file: &File) -> Result<u64, Reason> {
    place_of(file, SeekFrom::End(0))
}
