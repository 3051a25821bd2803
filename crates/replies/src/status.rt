ghost use Rattle.std.specs.Prelude.{◌≡◌, ◌≤◌, [], ◌∷◌, ◌++◌, length};
ghost use Rattle.model.specs.Tlv.{le, header, tlv, bytes, response_tag};
ghost use Rattle.model.specs.Layouts.{write};
ghost use Rattle.model.specs.Commands.{status_only};
ghost use Rattle.tlv.specs.Writing.{Wrote};
ghost use Rattle.params.specs.Kinds.{kind_is};
ghost use Rattle.replies.specs.Statuses.{number};

use fields::tags;
use params::kinds::Kind;
use tlv::writer::{put_header, put_tlv16};

// Statuses, by the names of source document 001 and each with its number there.
#[derive(Clone, Copy, Debug, PartialEq, Eq)]
pub enum Status {
    Ok = 0x00,
    ErrUnknown = 0x01,
    AccessDenied = 0x02,
    UserNotEnrolled = 0x03,
    CannotRenderTransactionContent = 0x04,
    UserCancelled = 0x05,
    CmdNotSupported = 0x06,
    AttestationNotSupported = 0x07,
    ParamsInvalid = 0x08,
    UserNotResponsive = 0x0E,
    InsufficientResources = 0x0F,
    UserLockout = 0x10,
}

impl From<Status> for usize {
    ghost from_gives = { λ status n. n ≡ number status };

    fn from(status: Status) -> usize {
        status as usize
    }
}

// The number of OK, with which each response starts that says more than a status. Writers take a number, which put_status writes whatever it is.
pub const OK: usize = Status::Ok as usize;

// The tag of a command's response.
fn response_tag(kind: Kind) -> usize
    ensures { result ≡ response_tag (kind_is kind) }
{
    match kind {
        Kind::GetInfo => tags::GETINFO_CMD_RESPONSE,
        Kind::Register => tags::REGISTER_CMD_RESPONSE,
        Kind::Sign => tags::SIGN_CMD_RESPONSE,
        Kind::Deregister => tags::DEREGISTER_CMD_RESPONSE,
        Kind::OpenSettings => tags::OPEN_SETTINGS_CMD_RESPONSE,
    }
}

// Writes how every response starts: its header, which says that the value has n bytes, and its status.
pub fn put_start(out: &mut [u8], tag: usize, n: usize, status: usize) -> usize
    requires { 10 ≤ length out.old }
    ensures { Wrote out.old 0 (header tag n ++ bytes (tlv 0x2808 (le 2 status) ∷ [])) 10 out.new result }
{
    let a = put_header(out, 0, tag, n);
    put_tlv16(out, a, tags::STATUS_CODE, status)
}

// Writes a response that holds a status only.
pub fn put_status(out: &mut [u8], kind: Kind, status: usize) -> usize
    requires { 10 ≤ length out.old }
    ensures { Wrote out.old 0 (write (status_only (kind_is kind)) (le 2 status ∷ [])) 10 out.new result }
{
    let tag = response_tag(kind);
    put_start(out, tag, 6, status)
}
