ghost use Rattle.std.specs.Prelude.{◌≡◌, length};
ghost use Rattle.params.specs.Kinds.{kind_is};
ghost use Rattle.params.specs.Parse.{no_params, params_at, ParamsRead, HandlesRead, ChildrenRead};

use crate::children::{are_enough, is_taken};
use crate::kinds;
use crate::kinds::{ENTRIES, KEY_HANDLE, Kind};
use fields::MAX_COMMAND;
use tlv::heads::{Head, NO_SPAN, Span};
use tlv::reader::is_whole;
use tlv::walk::tlv_at;

// The fields of a command: whether it breaks a rule and, if not, where each field's bytes stand in it, and how many key handles it has, whose
// places are put where the caller wants them. AppID and access token are for whoever works out the mixed token.
#[derive(Clone, Copy)]
pub struct Params {
    pub broken: bool,
    pub app_id: Span,
    pub challenge_hash: Span,
    pub username: Span,
    pub attestation_type: Span,
    pub access_token: Span,
    pub key_id: Span,
    pub transaction_content: Span,
    pub handle_count: usize,
}

// "key handle 32 .., at most 8 of them": how many places are lent for them.
pub const MOST_HANDLES: usize = 8;

// The answer to a command that breaks a rule.
fn no_params() -> Params
    ensures { result ≡ no_params }
{
    Params {
        broken: true,
        app_id: NO_SPAN,
        challenge_hash: NO_SPAN,
        username: NO_SPAN,
        attestation_type: NO_SPAN,
        access_token: NO_SPAN,
        key_id: NO_SPAN,
        transaction_content: NO_SPAN,
        handle_count: 0,
    }
}

// The answer to a command whose children were all taken: how often each slot was given, and where the first of its values stands. Key handles,
// whose slot is the last, are only counted.
#[tactic(auto, unfolding(crate::specs::Parse::params_at))]
fn params_at(least: [u8; ENTRIES], times: [u8; ENTRIES], first: [Span; KEY_HANDLE]) -> Params
    ensures { result ≡ params_at least times first }
{
    if !are_enough(times, least) {
        return no_params();
    }
    Params {
        broken: false,
        app_id: first[kinds::APP_ID],
        challenge_hash: first[kinds::CHALLENGE_HASH],
        username: first[kinds::USERNAME],
        attestation_type: first[kinds::ATTESTATION_TYPE],
        transaction_content: first[kinds::TRANSACTION_CONTENT],
        key_id: first[kinds::KEY_ID],
        access_token: first[kinds::ACCESS_TOKEN],
        handle_count: times[KEY_HANDLE] as usize,
    }
}

// The bytes of a command's header: its child run follows them.
const HEADER: usize = 4;

// Reads the child run of a command of this kind, in one walk: each child is taken or the command is broken, and each listed one is noted, key
// handles in what is lent for them. Places count from the command's first byte. The walk is a `loop`, since what is read says where the next child begins.
#[tactic(auto, using(crate::proofs::KindLaws::slot_most))]
fn read_children(run: &[u8], kind: Kind, handles: &mut [usize]) -> Params
    requires { length handles.old ≡ 8 }
    ensures { ChildrenRead (kind_is kind) run.now handles.new result }
{
    let listing = kinds::listed(kind);
    let mut times = [0u8; ENTRIES];
    let mut first = [NO_SPAN; KEY_HANDLE];
    let mut at = 0;
    loop {
        match tlv_at(run, at) {
            Head::End => return params_at(listing.least, times, first),
            Head::Bad => return no_params(),
            Head::Tlv { tag, start, end } => {
                let slot = kinds::slot_of(tag);
                let n = times[slot];
                let most = listing.most[slot];
                if !is_taken(tag, &run[start..end], slot, n, most) {
                    return no_params();
                }
                if 0 < most {
                    if slot == KEY_HANDLE {
                        handles[n as usize] = HEADER + start;
                    } else {
                        first[slot] = Span {
                            start: HEADER + start,
                            end: HEADER + end,
                        };
                    }
                    times[slot] = n + 1;
                }
                at = end;
            }
        }
    }
}

// Reads a command of this kind, and puts the places of its key handles into what is lent for them. Its child run is passed on as a part of it.
pub fn params_of(s: &[u8], kind: Kind, handles: &mut [usize]) -> Params
    requires { length handles.old ≡ 8 }
    ensures { ParamsRead (kind_is kind) s.now result × HandlesRead (kind_is kind) s.now handles.new result.handle_count }
{
    if MAX_COMMAND < s.len() {
        return no_params();
    }
    if !is_whole(s) {
        return no_params();
    }
    read_children(&s[HEADER..], kind, handles)
}
