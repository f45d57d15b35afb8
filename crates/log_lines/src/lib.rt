// Writes and reads the lines of a replay log.
#![tactic(auto)]

ghost use Rattle.std.specs.Prelude.{◌≡◌, ◌+◌, ◌%◌, ◌^◌, ◌<◌, ◌≤◌, ◌++◌, length};
ghost use Rattle.log_lines.specs.Text.{decimal};
ghost use Rattle.log_lines.specs.Lines.{text_of, word_text, verdict_text, trigger_text, in_range, word_in_range, verdict_in_range};
ghost use Rattle.log_lines.specs.Calls.{written, written_out, Reads};
ghost use Rattle.log_lines.specs.Steps.{Put, shifted, after_digit, after_byte, seen_in, guessed};

// A frame's answer. A peak and a correlation are bit patterns; a delay is in native samples.
#[derive(Clone, Copy)]
pub enum Word {
    Uncovered,
    Ahead,
    Quiet,
    Flat,
    Banked(u32),
    Weak,
    Ceiling,
    Crowded,
    Region(u64, u64),
}

#[derive(Clone, Copy)]
pub enum Trigger {
    Edge,
    Lost,
    Jump,
    Seam,
}

#[derive(Clone, Copy)]
pub enum Verdict {
    Hold,
    Move(u64),
    Reacquire(Trigger),
}

#[derive(Clone, Copy)]
pub enum Line {
    // rate and ceiling
    Replay(u32, u32),
    Frame(u64, Word),
    Cycle(u64, Verdict),
    // an event and its refusal number
    Refused(u32, u8),
    // how many frames and cycles
    End(u64, u64),
    BadHeader,
    BadEvent(u32),
    BadTotals,
}

fn digit(n: u64) -> u8
    requires { n < 10 }
    ensures { result ≡ 48 + n }
{
    b'0' + n as u8
}

// Each `put` writes a text into out from at on, and answers the place after it.
pub fn put(out: &mut [u8], at: usize, text: &[u8]) -> usize
    requires { at + length text.now ≤ length out.old }
    ensures { Put out.old at text.now out.new result }
{
    let end = at + text.len();
    out[at..end].copy_from_slice(text);
    end
}

fn put_decimal(out: &mut [u8], at: usize, n: u64) -> usize
    requires { at + 20 ≤ length out.old }
    ensures { Put out.old at (decimal n) out.new result }
{
    if n < 10 {
        out[at] = digit(n);
        return at + 1;
    }
    let last = put_decimal(out, at, n / 10);
    out[last] = digit(n % 10);
    last + 1
}

// Writes words and the number after them.
pub fn put_number(out: &mut [u8], at: usize, words: &[u8], n: u64) -> usize
    requires { at + length words.now + 20 ≤ length out.old }
    ensures { Put out.old at (words.now ++ decimal n) out.new result }
{
    let next = put(out, at, words);
    put_decimal(out, next, n)
}

// Does the same twice.
pub fn put_numbers(out: &mut [u8], at: usize, words: &[u8], m: u64, more: &[u8], n: u64) -> usize
    requires { at + length words.now + 20 + length more.now + 20 ≤ length out.old }
    ensures { Put out.old at (words.now ++ decimal m ++ more.now ++ decimal n) out.new result }
{
    let next = put_number(out, at, words, m);
    put_number(out, next, more, n)
}

// Lines are written by hand: the room is fixed and there is no heap, std says which bytes `write!` writes for a String alone, and `text_of` names each byte.
fn put_word(out: &mut [u8], at: usize, word: Word) -> usize
    requires { at + 49 ≤ length out.old }
    ensures { Put out.old at (word_text word) out.new result }
{
    match word {
        Word::Uncovered => put(out, at, b" uncovered"),
        Word::Ahead => put(out, at, b" ahead"),
        Word::Quiet => put(out, at, b" quiet"),
        Word::Flat => put(out, at, b" flat"),
        Word::Banked(peak) => put_number(out, at, b" banked ", u64::from(peak)),
        Word::Weak => put(out, at, b" weak"),
        Word::Ceiling => put(out, at, b" ceiling"),
        Word::Crowded => put(out, at, b" crowded"),
        Word::Region(delay, correlation) => put_numbers(
            out,
            at,
            b" region ",
            delay,
            b" ",
            correlation,
        ),
    }
}

fn put_trigger(out: &mut [u8], at: usize, trigger: Trigger) -> usize
    requires { at + 49 ≤ length out.old }
    ensures { Put out.old at (trigger_text trigger) out.new result }
{
    match trigger {
        Trigger::Edge => put(out, at, b" reacquire edge"),
        Trigger::Lost => put(out, at, b" reacquire lost"),
        Trigger::Jump => put(out, at, b" reacquire jump"),
        Trigger::Seam => put(out, at, b" reacquire seam"),
    }
}

fn put_verdict(out: &mut [u8], at: usize, verdict: Verdict) -> usize
    requires { at + 49 ≤ length out.old }
    ensures { Put out.old at (verdict_text verdict) out.new result }
{
    match verdict {
        Verdict::Hold => put(out, at, b" hold"),
        Verdict::Move(delay) => put_number(out, at, b" move ", delay),
        Verdict::Reacquire(trigger) => put_trigger(out, at, trigger),
    }
}

fn put_frame(out: &mut [u8], frame: u64, word: Word) -> usize
    requires { 75 ≤ length out.old }
    ensures { Put out.old 0 (text_of (Line.Frame frame word)) out.new result }
{
    let next = put_number(out, 0, b"frame ", frame);
    put_word(out, next, word)
}

fn put_cycle(out: &mut [u8], cycle: u64, verdict: Verdict) -> usize
    requires { 75 ≤ length out.old }
    ensures { Put out.old 0 (text_of (Line.Cycle cycle verdict)) out.new result }
{
    let next = put_number(out, 0, b"cycle ", cycle);
    put_verdict(out, next, verdict)
}

// Writes a line. No line is longer than 75 bytes.
pub fn put_line(out: &mut [u8], line: Line) -> usize
    requires { 75 ≤ length out.old }
    ensures { Put out.old 0 (text_of line) out.new result }
{
    match line {
        Line::Replay(rate, ceiling) => put_numbers(
            out,
            0,
            b"replay rate ",
            u64::from(rate),
            b" ceiling ",
            u64::from(ceiling),
        ),
        Line::Frame(frame, word) => put_frame(out, frame, word),
        Line::Cycle(cycle, verdict) => put_cycle(out, cycle, verdict),
        Line::Refused(event, number) => put_numbers(
            out,
            0,
            b"event ",
            u64::from(event),
            b" refused ",
            u64::from(number),
        ),
        Line::End(frames, cycles) => put_numbers(
            out,
            0,
            b"end frames ",
            frames,
            b" cycles ",
            cycles,
        ),
        Line::BadHeader => put(out, 0, b"bad header"),
        Line::BadEvent(event) => put_number(out, 0, b"bad event ", u64::from(event)),
        Line::BadTotals => put(out, 0, b"bad totals"),
    }
}

// The same from `at` on.
pub fn put_line_at(out: &mut [u8], at: usize, line: Line) -> usize
    requires { at + 75 ≤ length out.old }
    ensures { Put out.old at (text_of line) out.new result }
{
    let mut text = [0u8; 75];
    let n = put_line(&mut text, line);
    put(out, at, &text[..n])
}

// Writes the line's text, without a newline, at the start of out, and answers how many bytes it has, or none without room for it.
pub fn write_line(line: Line, out: &mut [u8]) -> Option<usize>
    ensures { (result ≡ written line out.old) × (out.new ≡ written_out line out.old) }
{
    let mut text = [0u8; 75];
    let n = put_line(&mut text, line);
    if out.len() < n {
        return None;
    }
    put(out, 0, &text[..n]);
    Some(n)
}

// What the guess at a text's line needs: the sum of the bytes that are not digits, its last three numbers, and whether it ends
// inside the third.
#[derive(Clone, Copy)]
struct Seen {
    shape: u64,
    a: u64,
    b: u64,
    c: u64,
    inside: bool,
}

fn shift(v: u64, d: u64) -> u64
    requires { d < 10 }
    ensures { result ≡ shifted v d }
{
    if v <= (u64::MAX - d) / 10 {
        v * 10 + d
    } else {
        0
    }
}

fn after_digit(s: Seen, d: u64) -> Seen
    requires { d < 10 }
    ensures { result ≡ after_digit s d }
{
    if s.inside {
        Seen {
            c: shift(s.c, d),
            ..s
        }
    } else {
        Seen {
            a: s.b,
            b: s.c,
            c: d,
            inside: true,
            ..s
        }
    }
}

fn after_byte(s: Seen, byte: u8) -> Seen
    ensures { result ≡ after_byte s byte }
{
    match byte {
        b'0'..=b'9' => after_digit(s, u64::from(byte - b'0')),
        _ => Seen {
            shape: s.shape.wrapping_add(u64::from(byte)),
            inside: false,
            ..s
        },
    }
}

fn look(text: &[u8]) -> Seen
    ensures { result ≡ seen_in text.now }
{
    let mut seen = Seen {
        shape: 0,
        a: 0,
        b: 0,
        c: 0,
        inside: false,
    };
    for byte in text {
        seen = after_byte(seen, *byte);
    }
    seen
}

fn low32(n: u64) -> u32
    ensures { result ≡ n % 2 ^ 32 }
{
    (n % 4294967296) as u32
}

fn low8(n: u64) -> u8
    ensures { result ≡ n % 2 ^ 8 }
{
    (n % 256) as u8
}

// Gives the only line that can have such a text. `read_line` writes that line and compares, which exposes every wrong guess.
fn guess(s: Seen) -> Line
    ensures { result ≡ guessed s }
{
    let Seen { shape, a, b, c, .. } = s;
    match shape {
        1940 => Line::Replay(low32(b), low32(c)),
        1558 => Line::Frame(c, Word::Uncovered),
        1086 => Line::Frame(c, Word::Ahead),
        1139 => Line::Frame(c, Word::Quiet),
        1010 => Line::Frame(c, Word::Flat),
        1232 => Line::Frame(b, Word::Banked(low32(c))),
        1011 => Line::Frame(c, Word::Weak),
        1318 => Line::Frame(c, Word::Ceiling),
        1331 => Line::Frame(c, Word::Crowded),
        1295 => Line::Frame(a, Word::Region(b, c)),
        1015 => Line::Cycle(c, Verdict::Hold),
        1063 => Line::Cycle(b, Verdict::Move(c)),
        1990 => Line::Cycle(c, Verdict::Reacquire(Trigger::Edge)),
        2035 => Line::Cycle(c, Verdict::Reacquire(Trigger::Lost)),
        2029 => Line::Cycle(c, Verdict::Reacquire(Trigger::Jump)),
        2007 => Line::Cycle(c, Verdict::Reacquire(Trigger::Seam)),
        1392 => Line::Refused(low32(b), low8(c)),
        1720 => Line::End(b, c),
        944 => Line::BadHeader,
        905 => Line::BadEvent(low32(c)),
        _ => Line::BadTotals,
    }
}

fn word_in_range(word: Word) -> bool
    ensures { result ≡ word_in_range word }
{
    match word {
        Word::Uncovered => true,
        Word::Ahead => true,
        Word::Quiet => true,
        Word::Flat => true,
        Word::Banked(_peak) => true,
        Word::Weak => true,
        Word::Ceiling => true,
        Word::Crowded => true,
        Word::Region(delay, _correlation) => delay < answers::LIMIT,
    }
}

fn verdict_in_range(verdict: Verdict) -> bool
    ensures { result ≡ verdict_in_range verdict }
{
    match verdict {
        Verdict::Hold => true,
        Verdict::Move(delay) => delay < answers::LIMIT,
        Verdict::Reacquire(_) => true,
    }
}

fn in_range(line: Line) -> bool
    ensures { result ≡ in_range line }
{
    match line {
        Line::Replay(rate, ceiling) => answers::allowed_rate(rate)
            && answers::allowed_ceiling(ceiling),
        Line::Frame(_frame, word) => word_in_range(word),
        Line::Cycle(_cycle, verdict) => verdict_in_range(verdict),
        Line::Refused(_event, number) => answers::within(1, 7, u32::from(number)),
        Line::End(_frames, _cycles) => true,
        Line::BadHeader => true,
        Line::BadEvent(_event) => true,
        Line::BadTotals => true,
    }
}

// Finds the line that has this text, if one has.
pub fn read_line(text: &[u8]) -> Option<Line>
    ensures { Reads text.now result }
{
    let line = guess(look(text));
    if !in_range(line) {
        return None;
    }
    let mut again = [0u8; 75];
    let n = put_line(&mut again, line);
    if check::same(&again[..n], text) {
        Some(line)
    } else {
        None
    }
}
