ghost use Rattle.std.specs.Prelude.{◌+◌, ◌≤◌, [], ◌∷◌, length, take, drop};
ghost use Rattle.model.specs.Tlv.{le, header, tlv, bytes};
ghost use Rattle.tlv.specs.Writing.{Wrote};

use crate::numbers::{get64, put16, put32, put64};

// Writes the 16 bytes of src at a place. Both numbers are read before one is written, so that the compiler can take them as one.
// By copy_from_slice it was slower: of two slices that asks first whether they overlap, and through an array of 16 bytes 32 bytes took 5.8 ns for 4.7.
fn put_block(out: &mut [u8], at: usize, src: &[u8], i: usize) -> usize
    requires { (at + 16 ≤ length out.old) × (i + 16 ≤ length src.now) }
    ensures { Wrote out.old at (take 16 (drop i src.now)) 16 out.new result }
{
    let low = get64(src, i);
    let high = get64(src, i + 8);
    let mid = put64(out, at, low);
    put64(out, mid, high)
}

// Writes 16 bytes or more, 16 at a time. The last 16 may overlap those before them, which are then written twice: no byte is left over.
fn put_long(out: &mut [u8], at: usize, src: &[u8]) -> usize
    requires { (16 ≤ length src.now) × (at + length src.now ≤ length out.old) }
    ensures { Wrote out.old at src.now (length src.now) out.new result }
{
    let last = src.len() - 16;
    for i in (0..last).step_by(16) {
        put_block(out, at + i, src, i);
    }
    put_block(out, at + last, src, last)
}

// Writes 8 to 16 bytes: the first 8, and the last 8, which may overlap them.
fn put_middling(out: &mut [u8], at: usize, src: &[u8]) -> usize
    requires { (8 ≤ length src.now) × (length src.now ≤ 16) × (at + length src.now ≤ length out.old) }
    ensures { Wrote out.old at src.now (length src.now) out.new result }
{
    let last = src.len() - 8;
    let low = get64(src, 0);
    let high = get64(src, last);
    put64(out, at, low);
    put64(out, at + last, high)
}

// Writes a few bytes, one by one: copy_from_slice of a length that is not constant is made for long copies.
fn put_few(out: &mut [u8], at: usize, src: &[u8]) -> usize
    requires { at + length src.now ≤ length out.old }
    ensures { Wrote out.old at src.now (length src.now) out.new result }
{
    for (i, b) in src.iter().enumerate() {
        out[at + i] = *b;
    }
    at + src.len()
}

// Writes all of src from a place on. Every writer returns the place after what it wrote.
pub fn put_bytes(out: &mut [u8], at: usize, src: &[u8]) -> usize
    requires { at + length src.now ≤ length out.old }
    ensures { Wrote out.old at src.now (length src.now) out.new result }
{
    if 16 < src.len() {
        return put_long(out, at, src);
    }
    if 8 <= src.len() {
        return put_middling(out, at, src);
    }
    put_few(out, at, src)
}

// Writes a header. The value is the caller's to write after it.
pub fn put_header(out: &mut [u8], at: usize, tag: usize, len: usize) -> usize
    requires { at + 4 ≤ length out.old }
    ensures { Wrote out.old at (header tag len) 4 out.new result }
{
    let a = put16(out, at, tag);
    put16(out, a, len)
}

// Writes a TLV.
pub fn put_tlv(out: &mut [u8], at: usize, tag: usize, v: &[u8]) -> usize
    requires { at + (4 + length v.now) ≤ length out.old }
    ensures { Wrote out.old at (bytes (tlv tag v.now ∷ [])) (4 + length v.now) out.new result }
{
    let a = put_header(out, at, tag, v.len());
    put_bytes(out, a, v)
}

// Writes a TLV whose value is a number in two bytes.
pub fn put_tlv16(out: &mut [u8], at: usize, tag: usize, n: usize) -> usize
    requires { at + 6 ≤ length out.old }
    ensures { Wrote out.old at (bytes (tlv tag (le 2 n) ∷ [])) 6 out.new result }
{
    let a = put_header(out, at, tag, 2);
    put16(out, a, n)
}

// Writes a TLV whose value is a number in four bytes.
pub fn put_tlv32(out: &mut [u8], at: usize, tag: usize, n: usize) -> usize
    requires { at + 8 ≤ length out.old }
    ensures { Wrote out.old at (bytes (tlv tag (le 4 n) ∷ [])) 8 out.new result }
{
    let a = put_header(out, at, tag, 4);
    put32(out, a, n)
}
