ghost use Rattle.std.specs.Prelude.{◌≡◌};
ghost use Rattle.model.specs.Tlv.{tlv, skippable};
ghost use Rattle.params.specs.Slots.{enough};
ghost use Rattle.params.specs.Children.{child_taken};

use crate::kinds::{ENTRIES, slot_fits};
use tlv::heads::{COMPOSITE, CRITICAL};
use tlv::reader::well_formed;

// "The command itself is level 1, and level 8 is the deepest": a child is at level 2.
const LEVELS_IN_CHILD: usize = 6;

// Whether a child that a command does not list may be skipped: it is not critical and, if composite, well formed.
fn is_skippable(tag: usize, v: &[u8]) -> bool
    ensures { result ≡ skippable (tlv tag v.now) }
{
    tag / CRITICAL % 2 == 0 && (tag / COMPOSITE % 2 == 0 || well_formed(v, LEVELS_IN_CHILD))
}

// Whether one more child is taken of a slot that was given n times and may be given `most` times: one that the command does not list may be
// skipped; one that it lists is not too many, and obeys its field's rule.
#[tactic(auto, unfolding(crate::specs::Children::child_taken))]
pub fn is_taken(tag: usize, v: &[u8], slot: usize, n: u8, most: u8) -> bool
    ensures { result ≡ child_taken slot most n (tlv tag v.now) }
{
    if most == 0 {
        return is_skippable(tag, v);
    }
    n < most && slot_fits(slot, v)
}

// Whether each slot was given as often as it must be.
pub fn are_enough(times: [u8; ENTRIES], least: [u8; ENTRIES]) -> bool
    ensures { result ≡ enough least times }
{
    least.iter().zip(times.iter()).all(|(m, n)| m <= n)
}
