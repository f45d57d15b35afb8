// The header of a recording, read from a file: 24 bytes, and 4 more only where these say that it has them. No byte behind the header is read for it. It is proved to be safe
// and to end.
#![tactic(auto)]

ghost use Rattle.std.specs.Prelude.{◌≡◌, length};
ghost use Rattle.pipes.specs.Window.{Within};

use pipes::window;
use pipes::window::Window;
use recording::Header;
use std::fs::File;

// The first 24 bytes are at hand: so many more may be read.
fn behind(head: Window, most: u64, room: &[u8]) -> Window
    requires { (Within head) × (length room.now ≡ 65536) }
    ensures { Within result }
{
    let at = head.at;
    let end = head.end;
    let whole = recording::header_length(&room[at..end]) as u64;
    window::allow(head, most.min(whole).saturating_sub(24))
}

// Reads the header at the start of the events, which are at most so many bytes.
pub fn read(events: Option<&File>, most: u64, room: &mut [u8]) -> Window
    requires { length room.old ≡ 65536 }
    ensures { Within result }
{
    let first = window::read_all(window::fresh(most.min(24)), events, room);
    let more = behind(first, most, room);
    window::read_all(more, events, room)
}

// What stands in the bytes of the header.
pub fn opened(head: Window, room: &[u8]) -> Option<Header>
    requires { (Within head) × (length room.now ≡ 65536) }
{
    let at = head.at;
    let end = head.end;
    recording::open(&room[at..end])
}
