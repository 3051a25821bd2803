// Tags. Commands and responses, by source document 001's names.
pub const GETINFO_CMD: usize = 0x3401;

pub const REGISTER_CMD: usize = 0x3402;

pub const SIGN_CMD: usize = 0x3403;

pub const DEREGISTER_CMD: usize = 0x3404;

pub const OPEN_SETTINGS_CMD: usize = 0x3406;

pub const GETINFO_CMD_RESPONSE: usize = 0x3601;

pub const REGISTER_CMD_RESPONSE: usize = 0x3602;

pub const SIGN_CMD_RESPONSE: usize = 0x3603;

pub const DEREGISTER_CMD_RESPONSE: usize = 0x3604;

pub const OPEN_SETTINGS_CMD_RESPONSE: usize = 0x3606;

// Fields, by document 01's names.
pub const KEYHANDLE: usize = 0x2801;

pub const USERVERIFY_TOKEN: usize = 0x2803;

pub const APPID: usize = 0x2804;

pub const KEYHANDLE_ACCESS_TOKEN: usize = 0x2805;

pub const USERNAME: usize = 0x2806;

pub const ATTESTATION_TYPE: usize = 0x2807;

pub const STATUS_CODE: usize = 0x2808;

pub const METADATA: usize = 0x2809;

pub const ASSERTION_SCHEME: usize = 0x280A;

pub const TC_DISPLAY_CONTENT_TYPE: usize = 0x280C;

pub const AUTHENTICATOR_INDEX: usize = 0x280D;

pub const API_VERSION: usize = 0x280E;

pub const AUTHENTICATOR_ASSERTION: usize = 0x280F;

pub const TRANSACTION_CONTENT: usize = 0x2810;

pub const CERT: usize = 0x2E05;

pub const SIGNATURE: usize = 0x2E06;

pub const KEYID: usize = 0x2E09;

pub const FINAL_CHALLENGE_HASH: usize = 0x2E0A;

pub const AAID: usize = 0x2E0B;

pub const PUB_KEY: usize = 0x2E0C;

pub const COUNTERS: usize = 0x2E0D;

pub const ASSERTION_INFO: usize = 0x2E0E;

pub const NONCE: usize = 0x2E0F;

pub const TRANSACTION_CONTENT_HASH: usize = 0x2E10;

pub const USERNAME_AND_KEYHANDLE: usize = 0x3802;

pub const AUTHENTICATOR_INFO: usize = 0x3811;

// Assertions and signed structures.
pub const REG_ASSERTION: usize = 0x3E01;

pub const AUTH_ASSERTION: usize = 0x3E02;

pub const KRD: usize = 0x3E03;

pub const SIGNED_DATA: usize = 0x3E04;

// The attestation types are tags too.
pub const BASIC_FULL: usize = 0x3E07;

pub const BASIC_SURROGATE: usize = 0x3E08;
