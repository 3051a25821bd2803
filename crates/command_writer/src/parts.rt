// The parts of a command that more than one writer has, or that are written in a loop.
ghost use Rattle.std.specs.Prelude.{◌≡◌, ◌+◌, ◌*◌, ◌/◌, ◌-◌, ◌≤◌, ◌++◌, length};
ghost use Rattle.model.specs.Tlv as tlvs;
ghost use Rattle.model.specs.Tlv.{header, bytes, optional};
ghost use Rattle.model.specs.Writer.{marked};
ghost use Rattle.tlv.specs.Writing.{Wrote};
ghost use Rattle.command_writer.specs.Lengths.{takes};
ghost use Rattle.command_writer.specs.Parts.{marked_size, handle_tlvs, opening};

use crate::lengths::{HANDLE, HEADER_AND_INDEX};
use crate::marked::Marked;
use fields::tags;
use params::kinds;
use tlv::writer::{put_header, put_tlv};

// How many bytes header, index and AppID take.
pub fn opening_len(app_id: &Marked) -> usize
    ensures { (result ≡ 9 + takes (optional tlvs.app_id) (marked app_id.now.mark app_id.now.value.now)) × (result ≤ 8205) }
{
    HEADER_AND_INDEX + app_id.len(kinds::APP_ID)
}

// What Register, Sign and Deregister begin with: the header of a command of len bytes, the index and, if it is given, the AppID.
pub fn put_opening(out: &mut [u8], tag: usize, len: usize, app_id: &Marked) -> usize
    requires { (4 ≤ len) × (9 + marked_size app_id.now ≤ length out.old) }
    ensures { Wrote out.old 0 (header tag (len - 4) ++ bytes (opening app_id.now)) (9 + marked_size app_id.now) out.new result }
{
    let a1 = put_header(out, 0, tag, len - 4);
    let a2 = put_tlv(out, a1, tags::AUTHENTICATOR_INDEX, b"\x00");
    app_id.put(out, a2, tags::APPID)
}

// Key handles that run together, a TLV for each.
pub fn put_handles(out: &mut [u8], at: usize, handles: &[u8]) -> usize
    requires { at + 36 * (length handles.now / 32) ≤ length out.old }
    ensures { Wrote out.old at (bytes (handle_tlvs (length handles.now / 32) handles.now)) (36 * (length handles.now / 32)) out.new result }
{
    let mut end = at;
    for handle in handles.chunks_exact(HANDLE) {
        end = put_tlv(out, end, tags::KEYHANDLE, handle);
    }
    end
}
