ghost use Rattle.std.specs.Prelude.{◌≡◌};
ghost use Rattle.tlv.specs.Heads.{head_at};

use crate::heads::{Head, head_at};

// A walk: "the stretch being read, with the place reached in it". What is over it is thin: it is taken apart here, the work is done by
// `head_at` on slice and number, and everybody else calls `tlv_at`.
// It is no Iterator: a reader notes the places of what it finds, and keeps the place itself.
#[derive(Clone, Copy)]
pub struct Walk<'a> {
    pub stretch: &'a [u8],
    pub at: usize,
}

// The walk over a stretch, at its start.
pub fn new<'a>(stretch: &'a [u8]) -> Walk<'a>
    ensures { (result.stretch ≡ stretch.entry) × (result.at ≡ 0) }
{
    Walk { stretch, at: 0 }
}

// What stands at the place reached.
pub fn next<'a>(w: Walk<'a>) -> Head
    ensures { result ≡ head_at w.entry.stretch.now w.entry.at }
{
    head_at(w.stretch, w.at)
}

// The walk moved on to another place of its stretch.
pub fn moved<'a>(w: Walk<'a>, at: usize) -> Walk<'a>
    ensures { (result.stretch ≡ w.entry.stretch) × (result.at ≡ at) }
{
    Walk {
        stretch: w.stretch,
        at,
    }
}

// What stands at a place of a stretch.
pub fn tlv_at(s: &[u8], at: usize) -> Head
    ensures { result ≡ head_at s.now at }
{
    next(moved(new(s), at))
}
