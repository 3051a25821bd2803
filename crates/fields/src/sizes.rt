// A field's tag and the least and the greatest length of its value: the one table of them, by document 01's names.
ghost use Rattle.std.specs.Prelude.{◌≡◌, ◌&&◌, leb};

use crate::{MAX_COMMAND, tags};

#[derive(Clone, Copy)]
pub struct Size {
    pub tag: usize,
    pub least: usize,
    pub most: usize,
}

// Whether a value may have this length.
pub fn allows(size: Size, n: usize) -> bool
    ensures { result ≡ (leb size.least n && leb n size.most) }
{
    (size.least <= n) & (n <= size.most)
}

pub const INDEX: Size = Size {
    tag: tags::AUTHENTICATOR_INDEX,
    least: 1,
    most: 1,
};

pub const APP_ID: Size = Size {
    tag: tags::APPID,
    least: 1,
    most: 512,
};

pub const CHALLENGE_HASH: Size = Size {
    tag: tags::FINAL_CHALLENGE_HASH,
    least: 1,
    most: 32,
};

pub const USERNAME: Size = Size {
    tag: tags::USERNAME,
    least: 1,
    most: 128,
};

pub const ATTESTATION_TYPE: Size = Size {
    tag: tags::ATTESTATION_TYPE,
    least: 2,
    most: 2,
};

// As a command gives it.
pub const ACCESS_TOKEN: Size = Size {
    tag: tags::KEYHANDLE_ACCESS_TOKEN,
    least: 32,
    most: 32,
};

// As it is stored.
pub const MIXED_TOKEN: Size = Size {
    tag: tags::KEYHANDLE_ACCESS_TOKEN,
    least: 32,
    most: 32,
};

pub const KEY_HANDLE: Size = Size {
    tag: tags::KEYHANDLE,
    least: 32,
    most: 32,
};

pub const KEY_ID: Size = Size {
    tag: tags::KEYID,
    least: 32,
    most: 32,
};

// In Deregister, where it may be empty.
pub const KEY_ID_OR_NONE: Size = Size {
    tag: tags::KEYID,
    least: 0,
    most: 32,
};

pub const USERVERIFY_TOKEN: Size = Size {
    tag: tags::USERVERIFY_TOKEN,
    least: 0,
    most: MAX_COMMAND,
};

pub const TRANSACTION_CONTENT: Size = Size {
    tag: tags::TRANSACTION_CONTENT,
    least: 0,
    most: MAX_COMMAND,
};

// In SIGNED_DATA with content, and without.
pub const CONTENT_HASH: Size = Size {
    tag: tags::TRANSACTION_CONTENT_HASH,
    least: 32,
    most: 32,
};

pub const NO_CONTENT_HASH: Size = Size {
    tag: tags::TRANSACTION_CONTENT_HASH,
    least: 0,
    most: 0,
};

// One count, in SIGNED_DATA and in a stored record; the two of KRD.
pub const COUNTER: Size = Size {
    tag: tags::COUNTERS,
    least: 4,
    most: 4,
};

pub const TWO_COUNTERS: Size = Size {
    tag: tags::COUNTERS,
    least: 8,
    most: 8,
};

// In KRD, with both algorithms; in SIGNED_DATA, with one.
pub const KRD_INFO: Size = Size {
    tag: tags::ASSERTION_INFO,
    least: 7,
    most: 7,
};

pub const SIGNED_INFO: Size = Size {
    tag: tags::ASSERTION_INFO,
    least: 5,
    most: 5,
};

pub const AAID: Size = Size {
    tag: tags::AAID,
    least: 9,
    most: 9,
};

pub const METADATA: Size = Size {
    tag: tags::METADATA,
    least: 15,
    most: 15,
};

pub const PUBLIC_KEY: Size = Size {
    tag: tags::PUB_KEY,
    least: 1,
    most: 512,
};

pub const NONCE: Size = Size {
    tag: tags::NONCE,
    least: 8,
    most: 32,
};

pub const API_VERSION: Size = Size {
    tag: tags::API_VERSION,
    least: 1,
    most: 1,
};

pub const CONTENT_TYPE: Size = Size {
    tag: tags::TC_DISPLAY_CONTENT_TYPE,
    least: 10,
    most: 10,
};

pub const ASSERTION_SCHEME: Size = Size {
    tag: tags::ASSERTION_SCHEME,
    least: 8,
    most: 8,
};

pub const SIGNATURE: Size = Size {
    tag: tags::SIGNATURE,
    least: 1,
    most: 512,
};

pub const CERTIFICATE: Size = Size {
    tag: tags::CERT,
    least: 1,
    most: 2048,
};
