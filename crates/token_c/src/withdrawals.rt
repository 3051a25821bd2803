ghost use Rattle.std.specs.Prelude.{◌≡◌, length};
ghost use Rattle.std.proofs.Math.Option.{some};
ghost use Rattle.model.specs.Records.{encode};
ghost use Rattle.model.specs.Commands.{stored, on_gave};
ghost use Rattle.model.specs.Withdrawals.{withdraw};
ghost use Rattle.authenticator.specs.Withdrawing.{withdrawal};
ghost use Rattle.token.specs.Written.{wrote, returned_bytes};

// Takes back the newest record of a mixed token, if it has this KeyID and has not signed. Gives the refusal number, or 0; then table_len bytes of the
// table output are the stored form of the table left.
#[unsafe(no_mangle)]
pub extern "C" fn uaf_withdraw(
    mixed: &[u8],
    key_id: &[u8],
    table: &[u8],
    table_out: &mut [u8],
    table_len: &mut usize,
) -> u32
    ensures { wrote result table_len.new table_out.new
        ≡ returned_bytes
        (on_gave encode
        (withdraw (withdrawal mixed.now key_id.now (some (length table_out.old))) (stored table.now)))
        (wrote 0 table_len.old table_out.old) }
{
    token::withdrawals::uaf_withdraw(mixed, key_id, table, table_out, table_len)
}
