// Whether a stretch of bytes is well-formed UTF-8 (RFC 3629). A short one is read character by character. In a longer one each byte is judged by itself
// and the three before it, so that 16 are judged together, in any order and without a branch.
#![tactic(auto)]

ghost use Rattle.std.specs.Prelude.{◌≡◌, not, ◌&&◌, ◌+◌, ◌-◌, ◌≤◌, ◌<◌, length, get_or};
ghost use Rattle.model.specs.Utf8.{within, tail, utf8};
ghost use Rattle.utf8.specs.Places.{owed, stands, places, padded, never, barred, Reached, plain};

// How many bytes are judged together, and how many that takes: three before them.
const WINDOW: usize = 16;

const SPAN: usize = 19;

// Whether a second byte makes three or four that would be too many for their value, a surrogate, or a character past 10FFFF. Tests are joined by `|` and
// `&`, which leave none out, so that there is no branch.
fn is_barred(c: u8, d: u8) -> bool
    ensures { result ≡ barred c d }
{
    let three = (c == 0xE0) & (d < 0xA0) | (c == 0xED) & (0x9F < d);
    let four = (c == 0xF0) & (d < 0x90) | (c == 0xF4) & (0x8F < d);
    three | four
}

// Whether a tail stands at a place.
fn is_tail(s: &[u8], at: usize) -> bool
    ensures { result ≡ within tail (get_or s.now at 0) }
{
    matches!(s.get(at), Some(0x80..=0xBF))
}

// The place after the character at a place; the same place where none stands.
#[tactic(auto, using(crate::proofs::CharLaws::none_first))]
fn after_char(s: &[u8], at: usize) -> usize
    requires { at < length s.now }
    ensures { Reached s.now at result }
{
    let a = s[at];
    if a < 0x80 {
        return at + 1;
    }
    if a < 0xC2 {
        return at;
    }
    if !is_tail(s, at + 1) {
        return at;
    }
    if a < 0xE0 {
        return at + 2;
    }
    if is_barred(a, s[at + 1]) {
        return at;
    }
    if !is_tail(s, at + 2) {
        return at;
    }
    if a < 0xF0 {
        return at + 3;
    }
    if 0xF4 < a {
        return at;
    }
    if !is_tail(s, at + 3) {
        return at;
    }
    at + 4
}

// Whether a stretch is well formed, character by character: the way for a short one.
fn by_chars(s: &[u8]) -> bool
    ensures { result ≡ utf8 s.now }
{
    // No `for`: a turn goes on by the length of the character that it read.
    let mut at: usize = 0;
    while at < s.len() {
        let next = after_char(s, at);
        if next == at {
            return false;
        }
        at = next;
    }
    true
}

// Whether one of three bytes has another to come after them.
fn is_owed(a: u8, b: u8, c: u8) -> bool
    ensures { result ≡ owed a b c }
{
    (0xF0 <= a) | (0xE0 <= b) | (0xC0 <= c)
}

// Whether a byte stands nowhere: the first of two that would be too many for their value, or of a character past 10FFFF.
fn is_never(d: u8) -> bool
    ensures { result ≡ never d }
{
    (d == 0xC0) | (d == 0xC1) | (0xF4 < d)
}

// Whether a byte may not stand after three others: it is a tail where none is to come or none where one is, or it is none of those that may.
fn misplaced(a: u8, b: u8, c: u8, d: u8) -> bool
    ensures { result ≡ not (stands a b c d) }
{
    let tail = (0x80 <= d) & (d <= 0xBF);
    (is_owed(a, b, c) != tail) | is_never(d) | is_barred(c, d)
}

// Whether each of 16 bytes may stand after the three before it, from a place on. None is left out, so that the compiler takes them all at once.
fn window(s: &[u8], at: usize) -> bool
    requires { at + 19 ≤ length s.now }
    ensures { result ≡ places 16 s.now at }
{
    let mut wrong = false;
    for i in 0..WINDOW {
        let p = at + i;
        wrong |= misplaced(s[p], s[p + 1], s[p + 2], s[p + 3]);
    }
    !wrong
}

// Whether each byte from the fourth on may stand after the three before it. The last 16 are judged together, some of them once more.
fn middle(s: &[u8]) -> bool
    requires { 19 ≤ length s.now }
    ensures { result ≡ places (length s.now - 3) s.now 0 }
{
    let last = s.len() - SPAN;
    // Not a `for` over `step_by`, which tests twice a turn whether the end is reached: 621 instructions for 602 of 128 bytes.
    let mut at: usize = 0;
    while at < last {
        if !window(s, at) {
            return false;
        }
        at += WINDOW;
    }
    window(s, last)
}

// Whether three bytes one after the other may stand after three others.
fn passes(a: u8, b: u8, c: u8, d: u8, e: u8, f: u8) -> bool
    ensures { result ≡ (stands a b c d && stands b c d e && stands c d e f) }
{
    !(misplaced(a, b, c, d) | misplaced(b, c, d, e) | misplaced(c, d, e, f))
}

// Whether the first three bytes of a stretch may stand after zeros, and zeros after the last three.
fn edges(s: &[u8]) -> bool
    requires { 3 ≤ length s.now }
    ensures { result ≡ (places 3 (padded s.now) 0 && places 3 s.now (length s.now - 3)) }
{
    let n = s.len();
    let front = passes(0, 0, 0, s[0], s[1], s[2]);
    let back = passes(s[n - 3], s[n - 2], s[n - 1], 0, 0, 0);
    front & back
}

// Whether n bytes from a place on are ASCII. None is left out: where n is a constant, the compiler takes them all at once.
fn is_plain(s: &[u8], at: usize, n: usize) -> bool
    requires { at + n ≤ length s.now }
    ensures { result ≡ plain n s.now at }
{
    s[at..at + n].iter().fold(0, |any, byte| any | byte) < 0x80
}

// Whether every byte is ASCII, k at a time. The last k are looked at together, some of them once more.
fn is_plain_by(s: &[u8], k: usize) -> bool
    requires { (0 < k) × (k ≤ length s.now) }
    ensures { result ≡ plain (length s.now) s.now 0 }
{
    let last = s.len() - k;
    // Not a `for` over `step_by`, as in `middle`: 59 instructions for 37 of 40 bytes.
    let mut at: usize = 0;
    while at < last {
        if !is_plain(s, at, k) {
            return false;
        }
        at += k;
    }
    is_plain(s, last, k)
}

// Whether every byte is ASCII, many at a time.
fn is_all_plain(s: &[u8]) -> bool
    ensures { result ≡ plain (length s.now) s.now 0 }
{
    let n = s.len();
    if n < 8 {
        return is_plain(s, 0, n);
    }
    if n < 16 {
        return is_plain_by(s, 8);
    }
    if n < 64 {
        return is_plain_by(s, 16);
    }
    is_plain_by(s, 64)
}

// Whether a stretch is well-formed UTF-8.
pub fn is_utf8(s: &[u8]) -> bool
    ensures { result ≡ utf8 s.now }
{
    if is_all_plain(s) {
        return true;
    }
    if s.len() < SPAN {
        return by_chars(s);
    }
    if !edges(s) {
        return false;
    }
    middle(s)
}
