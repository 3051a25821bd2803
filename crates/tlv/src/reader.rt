ghost use Rattle.std.specs.Prelude.{◌≡◌};
ghost use Rattle.model.specs.Tlv.{well_formed, fills};

use crate::heads::{COMPOSITE, Head};
use crate::numbers::get16;
use crate::walk::tlv_at;

// Whether a stretch is a run of TLVs that goes at most `levels` deep.
pub fn well_formed(s: &[u8], levels: usize) -> bool
    ensures { result ≡ well_formed levels s.now }
{
    if levels == 0 {
        return s.is_empty();
    }
    let mut at = 0;
    while at < s.len() {
        let Head::Tlv { tag, start, end } = tlv_at(s, at) else {
            return false;
        };
        if tag / COMPOSITE % 2 == 1 && !well_formed(&s[start..end], levels - 1) {
            return false;
        }
        at = end;
    }
    true
}

// Whether a stretch's first TLV ends with the stretch.
pub fn is_whole(s: &[u8]) -> bool
    ensures { result ≡ fills s.now }
{
    if s.len() < 4 {
        return false;
    }
    let len = get16(s, 2);
    s.len() - 4 == len
}
