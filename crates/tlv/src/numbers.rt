ghost use Rattle.std.specs.Prelude.{◌≡◌, ◌+◌, ◌≤◌, ◌<◌, [], ◌∷◌, length, take, drop};
ghost use Rattle.model.specs.Tlv.{le};
ghost use Rattle.tlv.specs.Numbers.{NumberAt};
ghost use Rattle.tlv.specs.Writing.{Wrote};

// A byte as a place or a length.
pub fn wide(x: u8) -> usize
    ensures { (result ≡ x) × (result < 256) }
{
    usize::from(x)
}

// The W bytes at a place.
fn bytes_at<const W: usize>(s: &[u8], at: usize) -> [u8; W]
    requires { at + W ≤ length s.now }
    ensures { result ≡ take W (drop at s.now) }
{
    let mut b = [0; W];
    b.copy_from_slice(&s[at..at + W]);
    b
}

// The 16-bit number at a place.
pub fn get16(s: &[u8], at: usize) -> usize
    requires { at + 2 ≤ length s.now }
    ensures { NumberAt 2 s.now at result }
{
    usize::from(u16::from_le_bytes(bytes_at(s, at)))
}

// The 32-bit number at a place.
pub fn get32(s: &[u8], at: usize) -> usize
    requires { at + 4 ≤ length s.now }
    ensures { NumberAt 4 s.now at result }
{
    u32::from_le_bytes(bytes_at(s, at)) as usize
}

// The 64-bit number at a place.
pub fn get64(s: &[u8], at: usize) -> usize
    requires { at + 8 ≤ length s.now }
    ensures { NumberAt 8 s.now at result }
{
    usize::from_le_bytes(bytes_at(s, at))
}

// The two lowest bytes of a length or a tag, the lowest first: the one place that splits a number into bytes. By a shift and masks, since division is
// dear on the terminal's processor: to_le_bytes of the library divides, and one function over the width would split by it.
fn split(n: usize) -> [u8; 2]
    ensures { result ≡ le 2 n }
{
    let high = n >> 8;
    [(n & 0xff) as u8, (high & 0xff) as u8]
}

// Writes a byte.
pub fn put8(out: &mut [u8], at: usize, b: u8) -> usize
    requires { at + 1 ≤ length out.old }
    ensures { Wrote out.old at (b ∷ []) 1 out.new result }
{
    out[at] = b;
    at + 1
}

// Writes a number in two bytes.
pub fn put16(out: &mut [u8], at: usize, n: usize) -> usize
    requires { at + 2 ≤ length out.old }
    ensures { Wrote out.old at (le 2 n) 2 out.new result }
{
    out[at..at + 2].copy_from_slice(&split(n));
    at + 2
}

// Writes a number in four bytes, its low half first.
pub fn put32(out: &mut [u8], at: usize, n: usize) -> usize
    requires { at + 4 ≤ length out.old }
    ensures { Wrote out.old at (le 4 n) 4 out.new result }
{
    let mid = put16(out, at, n);
    put16(out, mid, n >> 16)
}

// Writes a number in eight bytes, its low half first.
pub fn put64(out: &mut [u8], at: usize, n: usize) -> usize
    requires { at + 8 ≤ length out.old }
    ensures { Wrote out.old at (le 8 n) 8 out.new result }
{
    let mid = put32(out, at, n);
    put32(out, mid, n >> 32)
}
