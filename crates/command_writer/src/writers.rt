// One writer for each command, with its own fields: refusal 6, then 1, then the command.
ghost use Rattle.std.specs.Prelude.{◌≡◌, ℕ, ◌≤◌, List, [], ◌∷◌, length};
ghost use Rattle.model.specs.Tlv.{Tlv, tlv};
ghost use Rattle.model.specs.Writer.{Wanted, wanted_kind, command, write_command, to_get_info, to_open_settings};
ghost use Rattle.tlv.specs.Writing.{Wrote};
ghost use Rattle.fields.specs.Refusals.{ended, ends};
ghost use Rattle.command_writer.specs.Lengths.{Counts};
ghost use Rattle.command_writer.specs.Fields.{wanted_register, register_size, register_tlvs};
ghost use Rattle.command_writer.specs.Fields.{wanted_sign, sign_size, sign_tlvs};
ghost use Rattle.command_writer.specs.Fields.{wanted_deregister, deregister_size, deregister_tlvs};

use crate::lengths::{HEADER, HEADER_AND_INDEX, check_len, handles_len, one_len, type_len};
use crate::marked::Marked;
use crate::parts::{opening_len, put_handles, put_opening};
use fields::refusals::Refusal;
use fields::tags;
use params::kinds;
use tlv::writer::{put_header, put_tlv, put_tlv16};

// What a writer is lent: how many bytes the command takes, which is too many where a field breaks its rule, and those bytes.
trait Command {
    // The command that is wanted, in the words of the model, and its bytes and children where its fields obey their rules.
    ghost wanted: { Self → Wanted };

    ghost size: { Self → ℕ };

    ghost children: { Self → List Tlv };

    fn len(&self) -> usize
        ensures { Counts (wanted self.now) result (size self.now) (children self.now) };

    fn put(&self, out: &mut [u8], len: usize) -> usize
        requires { (len ≡ size self.now) × (len ≤ length out.old) }
        ensures { Wrote out.old 0 (command (wanted_kind (wanted self.now)) (children self.now)) len out.new result };
}

fn write<C: Command>(command: &C, out: &mut [u8]) -> Result<usize, Refusal>
    ensures { ended result out.new ≡ ends (write_command (C.wanted command.now) (length out.old)) out.old }
{
    let len = command.len();
    check_len(len, out.len())?;
    Ok(command.put(out, len))
}

// GetInfo has no fields.
struct GetInfo;

impl Command for GetInfo {
    ghost wanted = { λ _. to_get_info };

    ghost size = { λ _. 4 };

    ghost children = { λ _. [] };

    fn len(&self) -> usize {
        HEADER
    }

    fn put(&self, out: &mut [u8], _len: usize) -> usize {
        put_header(out, 0, tags::GETINFO_CMD, 0)
    }
}

// Writes GetInfo.
pub fn write_get_info(out: &mut [u8]) -> Result<usize, Refusal>
    ensures { ended result out.new ≡ ends (write_command to_get_info (length out.old)) out.old }
{
    write(&GetInfo, out)
}

// Open settings has the index alone.
struct OpenSettings;

impl Command for OpenSettings {
    ghost wanted = { λ _. to_open_settings };

    ghost size = { λ _. 9 };

    ghost children = { λ _. tlv 0x280D (0 ∷ []) ∷ [] };

    fn len(&self) -> usize {
        HEADER_AND_INDEX
    }

    fn put(&self, out: &mut [u8], _len: usize) -> usize {
        let a = put_header(out, 0, tags::OPEN_SETTINGS_CMD, HEADER_AND_INDEX - HEADER);
        put_tlv(out, a, tags::AUTHENTICATOR_INDEX, b"\x00")
    }
}

// Writes Open settings.
pub fn write_open_settings(out: &mut [u8]) -> Result<usize, Refusal>
    ensures { ended result out.new ≡ ends (write_command to_open_settings (length out.old)) out.old }
{
    write(&OpenSettings, out)
}

// The fields of a Register, as C lends them.
#[derive(Clone, Copy)]
pub struct Register<'a> {
    pub app_id: Marked<'a>,
    pub challenge: &'a [u8],
    pub username: &'a [u8],
    pub attestation: u32,
    pub access_token: &'a [u8],
    pub verify_token: Marked<'a>,
}

impl<'a> Command for Register<'a> {
    ghost wanted = { wanted_register };

    ghost size = { register_size };

    ghost children = { register_tlvs };

    fn len(&self) -> usize {
        opening_len(&self.app_id)
            + one_len(kinds::CHALLENGE_HASH, self.challenge)
            + one_len(kinds::USERNAME, self.username)
            + type_len(self.attestation)
            + one_len(kinds::ACCESS_TOKEN, self.access_token)
            + self.verify_token.len(kinds::USER_VERIFY_TOKEN)
    }

    fn put(&self, out: &mut [u8], len: usize) -> usize {
        let a1 = put_opening(out, tags::REGISTER_CMD, len, &self.app_id);
        let a2 = put_tlv(out, a1, tags::FINAL_CHALLENGE_HASH, self.challenge);
        let a3 = put_tlv(out, a2, tags::USERNAME, self.username);
        let a4 = put_tlv16(out, a3, tags::ATTESTATION_TYPE, self.attestation as usize);
        let a5 = put_tlv(out, a4, tags::KEYHANDLE_ACCESS_TOKEN, self.access_token);
        self.verify_token.put(out, a5, tags::USERVERIFY_TOKEN)
    }
}

// Writes a Register.
pub fn write_register(fields: &Register, out: &mut [u8]) -> Result<usize, Refusal>
    ensures { ended result out.new ≡ ends (write_command (wanted_register fields.now) (length out.old)) out.old }
{
    write(fields, out)
}

// The fields of a Sign, as C lends them: the key handles run together, with the length of each.
#[derive(Clone, Copy)]
pub struct Sign<'a> {
    pub app_id: Marked<'a>,
    pub challenge: &'a [u8],
    pub content: Marked<'a>,
    pub access_token: &'a [u8],
    pub verify_token: Marked<'a>,
    pub handles: &'a [u8],
    pub handle_sizes: &'a [usize],
}

impl<'a> Command for Sign<'a> {
    ghost wanted = { wanted_sign };

    ghost size = { sign_size };

    ghost children = { sign_tlvs };

    fn len(&self) -> usize {
        opening_len(&self.app_id)
            + one_len(kinds::CHALLENGE_HASH, self.challenge)
            + self.content.len(kinds::TRANSACTION_CONTENT)
            + one_len(kinds::ACCESS_TOKEN, self.access_token)
            + self.verify_token.len(kinds::USER_VERIFY_TOKEN)
            + handles_len(self.handles, self.handle_sizes)
    }

    fn put(&self, out: &mut [u8], len: usize) -> usize {
        let a1 = put_opening(out, tags::SIGN_CMD, len, &self.app_id);
        let a2 = put_tlv(out, a1, tags::FINAL_CHALLENGE_HASH, self.challenge);
        let a3 = self.content.put(out, a2, tags::TRANSACTION_CONTENT);
        let a4 = put_tlv(out, a3, tags::KEYHANDLE_ACCESS_TOKEN, self.access_token);
        let a5 = self.verify_token.put(out, a4, tags::USERVERIFY_TOKEN);
        put_handles(out, a5, self.handles)
    }
}

// Writes a Sign.
pub fn write_sign(fields: &Sign, out: &mut [u8]) -> Result<usize, Refusal>
    ensures { ended result out.new ≡ ends (write_command (wanted_sign fields.now) (length out.old)) out.old }
{
    write(fields, out)
}

// The fields of a Deregister, as C lends them.
#[derive(Clone, Copy)]
pub struct Deregister<'a> {
    pub app_id: Marked<'a>,
    pub key_id: &'a [u8],
    pub access_token: &'a [u8],
}

impl<'a> Command for Deregister<'a> {
    ghost wanted = { wanted_deregister };

    ghost size = { deregister_size };

    ghost children = { deregister_tlvs };

    fn len(&self) -> usize {
        opening_len(&self.app_id)
            + one_len(kinds::KEY_ID, self.key_id)
            + one_len(kinds::ACCESS_TOKEN, self.access_token)
    }

    fn put(&self, out: &mut [u8], len: usize) -> usize {
        let a1 = put_opening(out, tags::DEREGISTER_CMD, len, &self.app_id);
        let a2 = put_tlv(out, a1, tags::KEYID, self.key_id);
        put_tlv(out, a2, tags::KEYHANDLE_ACCESS_TOKEN, self.access_token)
    }
}

// Writes a Deregister.
pub fn write_deregister(fields: &Deregister, out: &mut [u8]) -> Result<usize, Refusal>
    ensures { ended result out.new ≡ ends (write_command (wanted_deregister fields.now) (length out.old)) out.old }
{
    write(fields, out)
}
