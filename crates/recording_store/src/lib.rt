// The samples of an event, converted into lent bytes, all or nothing: where a sample is strange no byte is written, and its place is answered.
#![tactic(auto)]

ghost use Rattle.std.specs.Prelude.{◌≡◌, ◌++◌, ◌+◌, ◌≤◌, ltb, length, drop};
ghost use Rattle.std.proofs.lemmas.List.Edits.{sets};
ghost use Rattle.answers.specs.Pick.{both};
ghost use Rattle.recording.specs.Bytes.{bytes};
ghost use Rattle.recording.specs.Samples.{width, bytes_of};
ghost use Rattle.recording_convert.specs.Converting.{form_from, form_to, same_form, Nowhere, stored, first_strange};
ghost use Rattle.recording_store.specs.Storing.{storing, stored_into, header_stored, headed_into};
ghost use Rattle.recording_store.specs.Steps.{is_fine, bits_in, code_at, found_at, field_bytes};

use recording::{Form, Header};
use recording_convert::Direction;

// Why no sample of an event was written. NoRoom: not all their bytes are there, or there is no room for them. StrangeAt: one of them is no sample of the other kind, and so many stand
// before it.
#[derive(Clone, Copy, Debug)]
pub enum Unstored {
    NoRoom,
    StrangeAt(u32),
}

// ---- one sample

fn float_at(s: &[u8], i: usize) -> Option<u32>
    requires { bytes_of Form.Shorts (i + 1) ≤ length s.now }
    ensures { result ≡ code_at Direction.ToFloats s.now i }
{
    Some(floats::bits::pattern32(recording_shorts::value(recording::u16_at(s, 2 * i))))
}

fn short_at(s: &[u8], i: usize) -> Option<u32>
    requires { bytes_of Form.Plain (i + 1) ≤ length s.now }
    ensures { result ≡ code_at Direction.ToShorts s.now i }
{
    let short = recording_shorts::number(recording::u32_at(s, 4 * i));
    match short {
        Some(n) => Some(n as u32),
        None => None,
    }
}

// Sample number i, converted, if it is one of the other kind.
fn code_at(direction: Direction, s: &[u8], i: usize) -> Option<u32>
    requires { bytes_of (form_from direction) (i + 1) ≤ length s.now }
    ensures { result ≡ code_at direction s.now i }
{
    match direction {
        Direction::ToFloats => float_at(s, i),
        Direction::ToShorts => short_at(s, i),
    }
}

// ---- samples of which one may be strange

// How many stand before the first strange one: all n where none is.
fn fine_samples(direction: Direction, s: &[u8], n: usize) -> usize
    requires { bytes_of (form_from direction) n ≤ length s.now }
    ensures { (result ≤ n) × (first_strange direction s.now 0 n ≡ found_at n result) }
{
    for i in 0..n {
        if code_at(direction, s, i).is_none() {
            return i;
        }
    }
    n
}

// ---- writing

// The bytes of a number, the least significant first.
fn put(out: &mut [u8], at: usize, width: usize, number: u32)
    requires { at + width ≤ length out.old }
    ensures { out.new ≡ sets out.old at (bytes width number) }
{
    let mut rest = number;
    let mut i = 0;
    while i < width {
        out[at + i] = (rest % 256) as u8;
        rest = rest / 256;
        i += 1;
    }
}

fn width_of(direction: Direction) -> usize
    ensures { result ≡ width (form_to direction) }
{
    match direction {
        Direction::ToFloats => 4,
        Direction::ToShorts => 2,
    }
}

// All n, of which none is strange.
fn write_samples(direction: Direction, s: &[u8], n: usize, out: &mut [u8])
    requires { (bytes_of (form_from direction) n ≤ length s.now) × (bytes_of (form_to direction) n ≤ length out.old) × (first_strange direction s.now 0 n ≡ Nowhere) }
    ensures { out.new ≡ stored direction s.now n ++ drop (bytes_of (form_to direction) n) out.old }
{
    let width = width_of(direction);
    for i in 0..n {
        let bits = code_at(direction, s, i).unwrap_or(0);
        put(out, width * i, width, bits);
    }
}

fn form_from(direction: Direction) -> Form
    ensures { result ≡ form_from direction }
{
    match direction {
        Direction::ToFloats => Form::Shorts,
        Direction::ToShorts => Form::Plain,
    }
}

// The form that a direction gives.
fn form_to(direction: Direction) -> Form
    ensures { result ≡ form_to direction }
{
    match direction {
        Direction::ToFloats => Form::Plain,
        Direction::ToShorts => Form::Shorts,
    }
}

// Converts the first `count` samples that the bytes s hold, to the start of out, all of them or none.
pub fn store(direction: Direction, s: &[u8], count: u32, out: &mut [u8]) -> Result<usize, Unstored>
    ensures { (result ≡ storing direction s.now count out.old) × (out.new ≡ stored_into direction s.now count out.old) }
{
    if (s.len() as u64) < recording::bytes_of(form_from(direction), count) {
        return Err(Unstored::NoRoom);
    }
    let given = recording::bytes_of(form_to(direction), count);
    if (out.len() as u64) < given {
        return Err(Unstored::NoRoom);
    }
    let fine = fine_samples(direction, s, count as usize);
    if fine < count as usize {
        return Err(Unstored::StrangeAt(fine as u32));
    }
    write_samples(direction, s, count as usize, out);
    Ok(given as usize)
}

// Whether the direction takes recordings of this form.
pub fn takes(direction: Direction, form: Form) -> bool
    ensures { result ≡ same_form (form_from direction) form }
{
    form_from(direction) == form
}

// ---- the header

fn put_fields(header: Header, offset: u32, out: &mut [u8])
    requires { 28 ≤ length out.old }
    ensures { out.new ≡ sets out.old 0 (field_bytes header offset) }
{
    put(out, 0, 4, header.rate);
    put(out, 4, 4, header.ceiling);
    put(out, 8, 4, header.events);
    put(out, 12, 4, offset);
    put(out, 16, 4, header.far);
    put(out, 20, 4, header.near);
}

// Writes the header that the direction gives to the start of out, where there are 28 bytes of room, and answers how many it has.
pub fn write_header(direction: Direction, header: Header, out: &mut [u8]) -> usize
    ensures { (result ≡ header_stored direction out.old) × (out.new ≡ headed_into direction header out.old) }
{
    if out.len() < 28 {
        return 0;
    }
    match direction {
        Direction::ToFloats => {
            put_fields(header, 24, out);
            24
        }
        Direction::ToShorts => {
            put_fields(header, 28, out);
            put(out, 24, 4, 2);
            28
        }
    }
}
