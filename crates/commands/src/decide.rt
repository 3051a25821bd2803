ghost use Rattle.std.specs.Prelude.{◌≡◌, length};
ghost use Rattle.model.specs.Tlv as model;
ghost use Rattle.params.specs.Kinds.{kind_is};
ghost use Rattle.params.specs.Parse.{ParamsRead, HandlesRead};
ghost use Rattle.commands.specs.Decisions.{Decides};

use crate::decision::{Decision, only};
use crate::deregister::deregister;
use crate::get_info::get_info;
use crate::open_settings::open_settings;
use crate::register::register;
use crate::sign::sign;
use params::kinds::Kind;
use params::lent::Numbers;
use params::parse::Params;
use stored_table::table::StoredTable;

// Decides a command of this kind, whose key handles stand at the first of these places. The numbers of the records that its reply names are put into
// what is lent for them.
pub fn decide(
    kind: Kind,
    command: &[u8],
    params: Params,
    handles: &[usize],
    numbers: Numbers,
    mixed: &[u8],
    key_id: &[u8],
    table: &StoredTable,
    chosen: &mut [usize],
) -> Decision
    requires params_read { ParamsRead (kind_is kind) command.now params × HandlesRead (kind_is kind) command.now handles.now params.handle_count }
    requires mixed_len { kind_is kind ≡ model.register → (length mixed.now ≡ 32) × (length key_id.now ≡ 32) }
    requires chosen_len { length chosen.old ≡ 8 }
    ensures { Decides (kind_is kind) command.now numbers mixed.now key_id.now table.now params
        chosen.new result }
{
    let decided = match kind {
        Kind::GetInfo => get_info(params),
        Kind::Register => register(command, params, numbers, mixed, key_id, table),
        Kind::Sign => sign(command, params, handles, numbers, mixed, table, chosen),
        Kind::Deregister => deregister(command, params, mixed, table),
        Kind::OpenSettings => open_settings(params),
    };
    decided.unwrap_or_else(|status| only(usize::from(status)))
}
