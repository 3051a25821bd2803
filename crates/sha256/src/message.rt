// A message in two parts: whole blocks where they lie, the block across the seam and the last ones in a buffer of 64 bytes.
ghost use Rattle.std.specs.Prelude.{◌≡◌, ◌+◌, ◌%◌, ◌<◌, ◌++◌, length, slice_index};
ghost use Rattle.model.specs.Sha256.{finish, digest, sha256};
ghost use Rattle.tlv.specs.Firsts.{firsts};
ghost use Rattle.sha256.specs.Views.{view};

use crate::block::{blocks, compress, initial};
use crate::words::Words;
use std::array;

// The byte at place i of two runs of bytes one after the other; behind them zeros.
fn byte_of(x: &[u8], y: &[u8], i: usize) -> u8
    ensures { result ≡ slice_index (x.now ++ y.now) i }
{
    match x.get(i) {
        Some(byte) => *byte,
        None => y.get(i - x.len()).copied().unwrap_or(0),
    }
}

// The first 64 bytes of two runs one after the other, zeros for those that they lack. Each byte is looked up by itself: a copy of a run
// would be compiled to a call of memcpy.
fn joined(x: &[u8], y: &[u8]) -> [u8; 64]
    ensures { result ≡ firsts 0 64 (x.now ++ y.now) }
{
    array::from_fn(|i| byte_of(x, y, i))
}

// What is left, less than a block, with the padding of a message of `total` bytes.
fn last(s: Words, x: &[u8], y: &[u8], total: usize) -> Words
    requires { (length x.now + length y.now < 64) × (total % 64 ≡ length x.now + length y.now) }
    ensures { view result ≡ finish total (view s) (x.now ++ y.now) }
{
    let t = x.len() + y.len();
    let bits = (total << 3).to_be_bytes();
    let mut d = joined(x, y);
    d[t] = 128;
    if t < 56 {
        d[56..].copy_from_slice(&bits);
        return compress(s, &d);
    }
    let h = compress(s, &d);
    let mut z = [0u8; 64];
    z[56..].copy_from_slice(&bits);
    compress(h, &z)
}

// What is left, in one part.
fn tail(s: Words, m: &[u8], total: usize) -> Words
    requires { total % 64 ≡ length m.now % 64 }
    ensures { view result ≡ finish total (view s) m.now }
{
    let h = blocks(s, m);
    let whole = m.len() - m.len() % 64;
    last(h, &m[whole..], &[], total)
}

// What is left, in two parts, the first less than a block.
fn across(s: Words, x: &[u8], b: &[u8], total: usize) -> Words
    requires { (length x.now < 64) × (total % 64 ≡ (length x.now + length b.now) % 64) }
    ensures { view result ≡ finish total (view s) (x.now ++ b.now) }
{
    let room = 64 - x.len();
    if b.len() < room {
        return last(s, x, b, total);
    }
    let d = joined(x, b);
    let h = compress(s, &d);
    tail(h, &b[room..], total)
}

// A hash value as 32 bytes, the highest byte of each word first.
fn digest_of(s: Words) -> [u8; 32]
    ensures { result ≡ digest (view s) }
{
    let words = [s.a, s.b, s.c, s.d, s.e, s.f, s.g, s.h];
    let mut digest = [0u8; 32];
    for (i, word) in words.iter().enumerate() {
        digest[4 * i..4 * i + 4].copy_from_slice(&word.to_be_bytes());
    }
    digest
}

// SHA-256 of the bytes of a followed by those of b.
pub fn hash(a: &[u8], b: &[u8]) -> [u8; 32]
    ensures { result ≡ sha256 (a.now ++ b.now) }
{
    let s = blocks(initial(), a);
    let whole = a.len() - a.len() % 64;
    let total = a.len() + b.len();
    digest_of(across(s, &a[whole..], b, total))
}
