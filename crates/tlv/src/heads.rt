ghost use Rattle.std.specs.Prelude.{◌≡◌, ◌-◌, ◌≤◌, eqb};
ghost use Rattle.tlv.specs.Heads.{head_at, part};
ghost use Rattle.tlv.specs.Spans.{Inside};

use crate::numbers::get16;

// A part of a stretch, from a place up to another.
#[derive(Clone, Copy)]
pub struct Span {
    pub start: usize,
    pub end: usize,
}

impl Span {
    // How long it is.
    pub fn len(self) -> usize
        requires { self.start ≤ self.end }
        ensures { result ≡ self.end - self.start }
    {
        self.end - self.start
    }

    // Whether it is empty.
    pub fn is_empty(self) -> bool
        ensures { result ≡ eqb self.start self.end }
    {
        self.start == self.end
    }
}

// An empty part at the front.
pub const NO_SPAN: Span = Span { start: 0, end: 0 };

// A part of a stretch, lent on.
pub fn part_of(s: &[u8], p: Span) -> &[u8]
    requires { Inside s.now p }
    ensures { result.now ≡ part s.now p }
{
    let start = p.start;
    let end = p.end;
    &s[start..end]
}

// What stands at a place of a stretch: a TLV, whose value lies from start to end; bytes that are none; or nothing more.
// An Option of a Result of a struct says the same in three layers: a reader's one match, and `head_at` of the specs, would be longer.
#[derive(Clone, Copy)]
pub enum Head {
    Tlv {
        tag: usize,
        start: usize,
        end: usize,
    },
    Bad,
    End,
}

// What stands at a place, read from the bytes there. Readers of a run go by `walk::tlv_at`.
pub fn head_at(s: &[u8], at: usize) -> Head
    ensures { result ≡ head_at s.now at }
{
    if s.len() <= at {
        return Head::End;
    }
    if s.len() - at < 4 {
        return Head::Bad;
    }
    let tag = get16(s, at);
    let len = get16(s, at + 2);
    if s.len() - at - 4 < len {
        return Head::Bad;
    }
    Head::Tlv {
        tag,
        start: at + 4,
        end: at + 4 + len,
    }
}

// The bit that marks a composite tag.
pub const COMPOSITE: usize = 0x1000;

// The bit that marks a critical tag.
pub const CRITICAL: usize = 0x2000;
