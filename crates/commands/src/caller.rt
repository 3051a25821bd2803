ghost use Rattle.std.specs.Prelude.{◌≡◌};
ghost use Rattle.params.specs.Kinds.{kind_is};
ghost use Rattle.params.specs.Parse.{ParamsRead};
ghost use Rattle.commands.specs.Callers.{looks, mixed_for};

use params::kinds::Kind;
use params::parse::Params;
use sha256::message::hash;
use tlv::heads::part_of;

// Whether a command's decision looks at its caller's records: it has an access token, no rule is broken and, where that is asked, the user is verified.
fn looks_up(kind: Kind, broken: bool, verdict: u32) -> bool
    ensures { result ≡ looks (kind_is kind) broken verdict }
{
    if broken {
        return false;
    }
    match kind {
        Kind::GetInfo => false,
        Kind::Register => verdict == 0,
        Kind::Sign => verdict == 0,
        Kind::Deregister => true,
        Kind::OpenSettings => false,
    }
}

// The caller's mixed token: the hash of access token and AppID, where they lie. Nothing is hashed for a command that does not look at its caller's
// records, for which zeros will do.
#[tactic(auto, unfolding(model::specs::Commands::mixed_in))]
pub fn mixed_token(kind: Kind, command: &[u8], params: Params, verdict: u32) -> [u8; 32]
    requires { ParamsRead (kind_is kind) command.now params }
    ensures { result ≡ mixed_for (kind_is kind) command.now verdict }
{
    if !looks_up(kind, params.broken, verdict) {
        return [0u8; 32];
    }
    hash(
        part_of(command, params.access_token),
        part_of(command, params.app_id),
    )
}
