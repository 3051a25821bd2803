ghost use Rattle.std.specs.Prelude.{◌≡◌, length};
ghost use Rattle.model.specs.Complete.{complete};
ghost use Rattle.model.specs.Reader.{read_response};
ghost use Rattle.completion.specs.Completions.{completion};
ghost use Rattle.token.specs.Written.{wrote, returned_bytes};
ghost use Rattle.token.specs.Responses.{points, pointed, gets_fields, returned_fields};

use crate::told::tell;
use completion::complete;
use fields::refusals::Refusal;
use response_reader::readings::{MOST_FIELDS, read_fields};
use response_reader::shapes::shape_of;

// Completes a draft: 0 or the number of a refusal, and after 0 the response and its length.
pub fn uaf_complete(
    kind: u32,
    draft: &[u8],
    attestation: u32,
    signature: &[u8],
    certificate: &[u8],
    response: &mut [u8],
    response_len: &mut usize,
) -> u32
    ensures { wrote result response_len.new response.new
        ≡ returned_bytes
        (complete
        (completion kind draft.now attestation signature.now certificate.now
        (length response.old)))
        (wrote 0 response_len.old response.old) }
{
    let done = complete(
        kind,
        draft,
        attestation as usize,
        signature,
        certificate,
        response,
    );
    tell(done, response_len)
}

// The reader's first call: 0 or the number of a refusal, and after 0 the place and the length of the signed structure.
pub fn uaf_signed_part(response: &[u8], place: &mut usize, part_len: &mut usize) -> u32
    ensures { points result place.new part_len.new
        ≡ pointed (read_response response.now) (points 0 place.old part_len.old) }
{
    match shape_of(response) {
        None => u32::from(Refusal::NotWritten),
        Some(p) => {
            *place = p.start;
            *part_len = p.len();
            0
        }
    }
}

// The reader's second call: 0 or the number of a refusal, and after 0 the response tag, the status, the number of fields and, in order, the
// tag, the value's place and the value's length of each. Entries past their number are 0.
pub fn uaf_read_fields(
    response: &[u8],
    tag: &mut usize,
    status: &mut usize,
    count: &mut usize,
    tags: &mut [usize; MOST_FIELDS],
    places: &mut [usize; MOST_FIELDS],
    lengths: &mut [usize; MOST_FIELDS],
) -> u32
    ensures { gets_fields result tag.new status.new count.new tags.new places.new lengths.new
        ≡ returned_fields (read_response response.now)
        (gets_fields 0 tag.old status.old count.old tags.old places.old lengths.old) }
{
    match read_fields(response, tags, places, lengths) {
        Err(refusal) => u32::from(refusal),
        Ok(r) => {
            *tag = r.tag;
            *status = r.status;
            *count = r.count;
            0
        }
    }
}
