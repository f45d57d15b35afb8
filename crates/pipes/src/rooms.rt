// Room on the stack: for a file's name, and for the bytes of a window.
ghost use Rattle.std.specs.Prelude.{◌≡◌, ◌≤◌, length};

use std::fs::File;
use std::io::Read;

// 4,096 zeros, which hold any name of a file that the system takes.
pub fn name() -> [u8; 4096]
    ensures { 4096 ≡ length result }
{
    [0; 4096]
}

// 65,536 zeros.
pub fn large() -> [u8; 65536]
    ensures { 65536 ≡ length result }
{
    [0; 65536]
}

// Reads until the buffer is full, the input ends or a read fails, and tells how many bytes it put at its start. Of an empty buffer, and of no file, it makes no call.
pub fn fill(from: Option<&File>, buf: &mut [u8]) -> usize
    ensures { result ≤ length buf.new }
{
    match from {
        Some(file) => fill_from(file, buf),
        None => 0,
    }
}

// `done` counts the bytes that came: a read brings as many as it likes.
fn fill_from(from: &File, buf: &mut [u8]) -> usize
    ensures { result ≤ length buf.new }
{
    let mut file = from;
    let mut done = 0;
    while done < buf.len() {
        match file.read(&mut buf[done..]) {
            Ok(0) | Err(_) => break,
            Ok(n) => done += n,
        }
    }
    done
}
