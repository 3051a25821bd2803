// Text: bytes in hexadecimal, what the calls with one output gave, and a sum that tells stretches apart.
ghost use Rattle.std.specs.Prelude.{◌≡◌, ◌<◌, length, take, MatchOption};
ghost use Rattle.script.specs.Adler.{adler_from};

use std::{fmt, io};

// The value of a hexadecimal digit with capital letters; of any other byte 0, also of a small letter, which `to_digit` would take.
fn digit(c: u8) -> u8
    ensures { result < 16 }
{
    match c {
        b'0'..=b'9' => c - b'0',
        b'A'..=b'F' => c - b'A' + 10,
        _ => 0,
    }
}

// The bytes that hexadecimal text spells, as many as there is room for.
pub fn read_hex<'a>(text: &[u8], room: &'a mut [u8]) -> &'a [u8] {
    let (pairs, _) = text.as_chunks::<2>();
    for (byte, [high, low]) in room.iter_mut().zip(pairs) {
        *byte = digit(*high) * 16 + digit(*low);
    }
    let n = room.len().min(pairs.len());
    &room[..n]
}

// Bytes, which are written in hexadecimal.
#[derive(Drop)]
struct Hex<'a>(&'a [u8]);

impl fmt::Display for Hex<'_> {
    fn fmt<W: fmt::Write>(&self, f: &mut fmt::Formatter<W>) -> fmt::Result {
        for byte in self.0 {
            write!(f, "{byte:02X}")?;
        }
        Ok(())
    }
}

// How much is told of what was written into an output.
#[derive(Clone, Copy)]
pub enum Detail {
    Sums,
    Whole,
}

// What was written from the front of an output, or only a sum of it, and a sum of what is beyond.
pub fn write_written(rt: &impl Print, output: &[u8], len: usize, detail: Detail) -> io::Result<()> {
    let Some((written, beyond)) = output.split_at_checked(len) else {
        return print!(rt; " a length too great");
    };
    print!(rt; " {len} {} {}", adler(written), adler(beyond))?;
    match detail {
        Detail::Sums => Ok(()),
        Detail::Whole => print!(rt; " {}", Hex(written)),
    }
}

// What a C entry with one output gave: the refusal number, or 0, and the length. After a refusal both are told, so that the length is seen to be
// untouched.
#[derive(Clone, Copy)]
pub struct Given {
    pub code: u32,
    pub len: usize,
}

impl Given {
    // Says what was given: after a refusal its number, the length and a sum of the output; else this word, and what was written.
    pub fn tell(self, rt: &impl Print, word: &str, output: &[u8]) -> io::Result<()> {
        let Given { code, len } = self;
        if code != 0 {
            return print!(rt; "refusal {code} {len} {}", adler(output));
        }
        print!(rt; "{word}")?;
        write_written(rt, output, len, Detail::Whole)
    }

    // What was written from the front of the output, unless the call was refused.
    pub fn written(self, output: &[u8]) -> Option<&[u8]>
        ensures { MatchOption result (self.code ≡ 0 → length output.now < self.len)
            (λ s. (self.code ≡ 0) × (s.now ≡ take self.len output.now)) }
    {
        if self.code != 0 {
            return None;
        }
        output.get(..self.len)
    }
}

// Adler-32, which tells stretches apart in a short line.
pub fn adler(s: &[u8]) -> u32
    ensures { result ≡ adler_from 1 0 s.now }
{
    let mut a = 1;
    let mut b = 0;
    for x in s {
        a = (a + u32::from(*x)) % 65521;
        b = (b + a) % 65521;
    }
    b * 65536 + a
}
