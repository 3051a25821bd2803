ghost use Rattle.std.specs.Prelude.{◌≡◌, ◌+◌, ◌≤◌, [], length};
ghost use Rattle.model.specs.Commands.{least_output};
ghost use Rattle.model.specs.Complete.{completed};
ghost use Rattle.tlv.specs.Writing.{Wrote};
ghost use Rattle.completion.specs.Completions.{completion, opening, certificate_size};

use fields::tags;
use replies::status::{OK, put_start};
use tlv::writer::{put_bytes, put_header, put_tlv};

// What stands before the draft: the response's header, status OK, and the headers of AUTHENTICATOR_ASSERTION and of the assertion, whose value
// has n bytes.
fn put_opening(out: &mut [u8], response: usize, assertion: usize, n: usize) -> usize
    requires { (18 ≤ length out.old) × (n ≤ least_output) }
    ensures { Wrote out.old 0 (opening response assertion n) 18 out.new result }
{
    let a1 = put_start(out, response, n + 14, OK);
    let a2 = put_header(out, a1, tags::AUTHENTICATOR_ASSERTION, n + 4);
    put_header(out, a2, assertion, n)
}

// The response to a Sign. Nothing stands beside its signature, so it is no form of the registration below.
pub fn put_sign(out: &mut [u8], draft: &[u8], signature: &[u8]) -> usize
    requires { (22 + (length draft.now + length signature.now) ≤ least_output) × (least_output ≤ length out.old) }
    ensures { Wrote out.old 0 (completed (completion 1 draft.now 0 signature.now [] 0)) result out.new result }
{
    let a1 = put_opening(
        out,
        tags::SIGN_CMD_RESPONSE,
        tags::AUTH_ASSERTION,
        draft.len() + (4 + signature.len()),
    );
    let a2 = put_bytes(out, a1, draft);
    put_tlv(out, a2, tags::SIGNATURE, signature)
}

// How many bytes the certificate takes: only a full attestation has one.
fn certificate_len(attestation: usize, certificate: &[u8]) -> usize
    requires { length certificate.now ≤ least_output }
    ensures { result ≡ certificate_size attestation (length certificate.now) }
{
    if attestation == tags::BASIC_FULL {
        4 + certificate.len()
    } else {
        0
    }
}

// The response to a Register: in the attestation tag stands the signature and, where the attestation is full, the certificate after it. The type that
// C gives is itself that tag, so it stays a number.
pub fn put_registration(
    out: &mut [u8],
    draft: &[u8],
    attestation: usize,
    signature: &[u8],
    certificate: &[u8],
) -> usize
    requires { (30 + (length draft.now + (length signature.now + length certificate.now)) ≤ least_output) × (least_output ≤ length out.old) }
    ensures { Wrote out.old 0 (completed (completion 0 draft.now attestation signature.now certificate.now 0)) result out.new result }
{
    let n = 4 + signature.len() + certificate_len(attestation, certificate);
    let a1 = put_opening(
        out,
        tags::REGISTER_CMD_RESPONSE,
        tags::REG_ASSERTION,
        draft.len() + (4 + n),
    );
    let a2 = put_bytes(out, a1, draft);
    let a3 = put_header(out, a2, attestation, n);
    if attestation != tags::BASIC_FULL {
        return put_tlv(out, a3, tags::SIGNATURE, signature);
    }
    let a4 = put_tlv(out, a3, tags::SIGNATURE, signature);
    put_tlv(out, a4, tags::CERT, certificate)
}
