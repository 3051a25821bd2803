ghost use Rattle.std.specs.Prelude.{◌≡◌, ◌+◌, ◌≤◌, length};
ghost use Rattle.model.specs.Tlv.{optional, bytes};
ghost use Rattle.model.specs.Writer.{marked};
ghost use Rattle.tlv.specs.Writing.{Wrote};
ghost use Rattle.params.specs.Slots.{slot_field};
ghost use Rattle.command_writer.specs.Lengths.{takes};
ghost use Rattle.command_writer.specs.Parts.{marked_tlvs, marked_size};

use crate::lengths::{TOO_LONG, one_len};
use tlv::writer::put_tlv;

// The marks. They stay numbers, as C lends them: any other is none, and a field that has it is refused.
const NOT_GIVEN: u32 = 0;

const GIVEN: u32 = 1;

// A field that may be left away, as C lends it: a mark, and the value beside it.
#[derive(Clone, Copy)]
pub struct Marked<'a> {
    pub mark: u32,
    pub value: &'a [u8],
}

impl<'a> Marked<'a> {
    // How many bytes it takes, for the field of a slot.
    #[tactic(auto, using(crate::proofs::LengthLaws::by_mark))]
    pub(crate) fn len(&self, slot: usize) -> usize
        ensures { (result ≡ takes (optional (slot_field slot)) (marked self.now.mark self.now.value.now)) × (result ≤ 8196) }
    {
        match self.mark {
            NOT_GIVEN => 0,
            GIVEN => one_len(slot, self.value),
            _ => TOO_LONG,
        }
    }

    // Writes it, if it is given.
    #[tactic(auto, using(crate::proofs::PartLaws::marked_written))]
    pub(crate) fn put(&self, out: &mut [u8], at: usize, tag: usize) -> usize
        requires { at + marked_size self.now ≤ length out.old }
        ensures { Wrote out.old at (bytes (marked_tlvs tag self.now)) (marked_size self.now) out.new result }
    {
        if self.mark == GIVEN {
            return put_tlv(out, at, tag, self.value);
        }
        at
    }
}
