ghost use Rattle.std.specs.Prelude.{◌≡◌, ◌++◌};
ghost use Rattle.model.specs.Sha256.{sha256};

use sha256::message;

// The hash of a first stretch followed by a second, either perhaps empty: of access token and AppID, for the firmware that needs a mixed token. It has
// no refusal.
pub fn uaf_hash(first: &[u8], second: &[u8], hash: &mut [u8; 32])
    ensures { hash.new ≡ sha256 (first.now ++ second.now) }
{
    let digest = message::hash(first, second);
    *hash = digest;
}
