ghost use Rattle.std.specs.Prelude.{◌≡◌, ◌-◌, ◌≤◌, length};
ghost use Rattle.model.specs.Commands.{least_output, bytes_of};
ghost use Rattle.tlv.specs.Writing.{Wrote};
ghost use Rattle.params.specs.Kinds.{kind_is};
ghost use Rattle.replies.specs.Replies.{answer_of, challenge_len, reply_size, Short, Ready};

use crate::drafts::{put_krd, put_signed_data};
use crate::info::put_info;
use crate::names::{pairs_len, put_names};
use crate::reply::Shape;
use crate::status::put_status;
use params::kinds::Kind;
use params::lent::Lent;
use params::parse::Params;
use stored_table::table::StoredTable;
use tlv::heads::{Span, part_of};

// How many bytes a reply that names the records with these numbers takes, to a command whose challenge hash is this part of it.
pub fn reply_len(
    shape: Shape,
    named: &[usize],
    challenge: Span,
    public_key: &[u8],
    nonce: &[u8],
    table: &StoredTable,
) -> usize
    requires { (challenge.start ≤ challenge.end)
        × Short (challenge.end - challenge.start) (length public_key.now) (length nonce.now) table.now named.now shape }
    ensures { (result ≡ reply_size (challenge.end - challenge.start) (length public_key.now) (length nonce.now) table.now named.now shape)
        × (result ≤ least_output) }
{
    match shape {
        Shape::Status(_) => 10,
        Shape::Info => 94,
        Shape::Names => 10 + pairs_len(table, named),
        Shape::Registration => 84 + challenge.len() + public_key.len(),
        Shape::Signed {
            record: _,
            count: _,
            content,
        } => {
            let hash = if content { 36 } else { 4 };
            78 + challenge.len() + nonce.len() + hash
        }
    }
}

// Writes a reply of len bytes, to a command of this kind with these parameters that was lent this, from the front of an output that is long enough.
pub fn write_reply(
    out: &mut [u8],
    shape: Shape,
    named: &[usize],
    len: usize,
    kind: Kind,
    command: &[u8],
    params: Params,
    lent: &Lent,
    table: &StoredTable,
) -> usize
    requires ready { Ready command.now lent.now table.now params named.now shape }
    requires len_value { (len ≡ reply_size (challenge_len params) (length lent.now.public_key) (length lent.now.nonce) table.now named.now shape)
        × (len ≤ length out.old) }
    ensures { Wrote out.old 0 (bytes_of (answer_of (kind_is kind) command.now lent.now table.now named.now shape)) len out.new result }
{
    match shape {
        Shape::Status(status) => put_status(out, kind, status),
        Shape::Info => put_info(out, lent.aaid, lent.metadata),
        Shape::Names => put_names(out, len, table, named),
        Shape::Registration => put_krd(
            out,
            len,
            lent.aaid,
            lent.numbers,
            part_of(command, params.challenge_hash),
            lent.key_id,
            lent.public_key,
        ),
        Shape::Signed {
            record,
            count,
            content,
        } => put_signed_data(
            out,
            len,
            lent.aaid,
            lent.numbers,
            content,
            lent.nonce,
            part_of(command, params.challenge_hash),
            part_of(command, params.transaction_content),
            table.key_of(record),
            count,
        ),
    }
}
