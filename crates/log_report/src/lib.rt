// What is told of two logs: the text of a report, and of a line that is none of a log.
#![tactic(auto)]

ghost use Rattle.std.specs.Prelude.{◌≡◌, ◌++◌, ◌+◌, ◌≤◌, length};
ghost use Rattle.log_lines.specs.Steps.{Put};
ghost use Rattle.log_report.specs.Texts.{side_words, marked_text, differ_text, section_text, sections_text, all_alike, order_text, counts_text, report_text, why_text, where_text, strange_text, place_text};
ghost use Rattle.log_report.specs.Calls.{reported, reported_out, refused_as, refused_out};

use log_lines::Line;
use log_parts::{Difference, Report};

// ---- the two lines that differ

fn put_side(out: &mut [u8], at: usize, side: Option<Line>) -> usize
    requires { at + 75 ≤ length out.old }
    ensures { Put out.old at (side_words side) out.new result }
{
    match side {
        None => log_lines::put(out, at, b"nothing"),
        Some(line) => log_lines::put_line_at(out, at, line),
    }
}

// On a new line, behind its mark.
fn put_marked(out: &mut [u8], at: usize, mark: &[u8], side: Option<Line>) -> usize
    requires { at + length mark.now + 75 ≤ length out.old }
    ensures { Put out.old at (marked_text mark.now side) out.new result }
{
    let next = log_lines::put(out, at, mark);
    put_side(out, next, side)
}

fn put_pair(out: &mut [u8], at: usize, x: Option<Line>, y: Option<Line>) -> usize
    requires { at + 157 ≤ length out.old }
    ensures { Put out.old at (differ_text x y) out.new result }
{
    let next = put_marked(out, at, b"\n< ", x);
    let last = put_marked(out, next, b"\n> ", y);
    log_lines::put(out, last, b"\n")
}

// A heading and two lines, where the sort differs.
fn put_section(out: &mut [u8], at: usize, heading: &[u8], first: Option<Difference>) -> usize
    requires { at + length heading.now + 157 ≤ length out.old }
    ensures { Put out.old at (section_text heading.now first) out.new result }
{
    match first {
        None => at,
        Some(difference) => {
            let next = log_lines::put(out, at, heading);
            put_pair(out, next, difference.first, difference.second)
        }
    }
}

fn put_sections(out: &mut [u8], report: Report) -> usize
    requires { 815 ≤ length out.old }
    ensures { Put out.old 0 (sections_text report) out.new result }
{
    let a = put_section(out, 0, b"header", report.headers);
    let b = put_section(out, a, b"frame", report.frames);
    let c = put_section(out, b, b"cycle", report.cycles);
    let d = put_section(out, c, b"refusal", report.refusals);
    put_section(out, d, b"closing", report.closings)
}

// ---- the order, and the counts

fn all_alike(report: Report) -> bool
    ensures { result ≡ all_alike report }
{
    report.headers.is_none()
        && report.frames.is_none()
        && report.cycles.is_none()
        && report.refusals.is_none()
        && report.closings.is_none()
}

fn put_place(out: &mut [u8], at: usize, place: u64) -> usize
    requires { at + 33 ≤ length out.old }
    ensures { Put out.old at (place_text place) out.new result }
{
    let next = log_lines::put_number(out, at, b"order: line ", place);
    log_lines::put(out, next, b"\n")
}

// Where no sort differs, the logs part in the order between sorts.
fn put_order(out: &mut [u8], at: usize, report: Report) -> usize
    requires { at + 33 ≤ length out.old }
    ensures { Put out.old at (order_text report) out.new result }
{
    if all_alike(report) {
        return put_place(out, at, report.place);
    }
    at
}

fn put_counts(out: &mut [u8], at: usize, frames: u64, cycles: u64) -> usize
    requires { at + 66 ≤ length out.old }
    ensures { Put out.old at (counts_text frames cycles) out.new result }
{
    let next = log_lines::put_numbers(out, at, b"differing frames ", frames, b" cycles ", cycles);
    log_lines::put(out, next, b"\n")
}

fn put_report(out: &mut [u8], report: Report) -> usize
    requires { 914 ≤ length out.old }
    ensures { Put out.old 0 (report_text report) out.new result }
{
    let next = put_sections(out, report);
    let last = put_order(out, next, report);
    put_counts(out, last, report.differing_frames, report.differing_cycles)
}

// Writes where two logs part, at the start of out, which must have 1,024 bytes or more.
pub fn write_report(report: Report, out: &mut [u8]) -> Option<usize>
    ensures { (result ≡ reported report out.old) × (out.new ≡ reported_out report out.old) }
{
    if out.len() < 1024 {
        return None;
    }
    let n = put_report(out, report);
    Some(n)
}

// ---- a line that is none of a log

// A line of a log stands in the wrong place only where its number does not rise.
fn put_why(out: &mut [u8], at: usize, text: &[u8]) -> usize
    requires { at + 22 ≤ length out.old }
    ensures { Put out.old at (why_text text.now) out.new result }
{
    match log_lines::read_line(text) {
        Some(_line) => log_lines::put(out, at, b"number does not rise: "),
        None => at,
    }
}

fn put_where(out: &mut [u8], name: &[u8], place: u64) -> usize
    requires { length name.now + 39 ≤ length out.old }
    ensures { Put out.old 0 (where_text name.now place) out.new result }
{
    let a = log_lines::put(out, 0, b"refused 8: ");
    let b = log_lines::put(out, a, name);
    let c = log_lines::put_number(out, b, b" line ", place);
    log_lines::put(out, c, b": ")
}

fn put_strange(out: &mut [u8], name: &[u8], place: u64, text: &[u8]) -> usize
    requires { length name.now + 140 ≤ length out.old }
    ensures { Put out.old 0 (strange_text name.now place text.now) out.new result }
{
    let a = put_where(out, name, place);
    let b = put_why(out, a, text);
    log_text::put_shown(out, b, text)
}

// Writes which line of which file is none of a log, at the start of out, which must have 140 bytes more than the name.
pub fn write_refusal(name: &[u8], place: u64, text: &[u8], out: &mut [u8]) -> Option<usize>
    ensures { (result ≡ refused_as name.now place text.now out.old) × (out.new ≡ refused_out name.now place text.now out.old) }
{
    if out.len() < 140 {
        return None;
    }
    if out.len() - 140 < name.len() {
        return None;
    }
    let n = put_strange(out, name, place, text);
    Some(n)
}
