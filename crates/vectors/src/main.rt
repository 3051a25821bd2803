// The digests of the messages that are published with FIPS 180-4, in hexadecimal: of each one as a whole, then in two halves, which must be the same. The
// file stdout has the published ones.
#![tactic(auto)]

use sha256::message::hash;
use std::io;

// Writes a digest and ends the line.
fn write_line(rt: &impl Print, digest: [u8; 32]) -> io::Result<()> {
    for byte in digest {
        print!(rt; "{byte:02x}")?;
    }
    println!(rt)
}

// Writes the digest of a message, and of its halves one after the other.
fn show(rt: &impl Print, message: &[u8]) -> io::Result<()> {
    let half = message.len() / 2;
    write_line(rt, hash(message, b""))?;
    write_line(rt, hash(&message[..half], &message[half..]))
}

// The message of a million times the letter a.
fn show_million(rt: &impl Print) -> io::Result<()> {
    let many = [b'a'; 1000000];
    show(rt, &many)
}

// The messages of 24, 448, 896 and no bits, and the long one.
fn main(rt: HostRuntime) -> io::Result<()> {
    show(&rt, b"abc")?;
    show(
        &rt,
        b"abcdbcdecdefdefgefghfghighijhijkijkljklmklmnlmnomnopnopq",
    )?;
    show(
        &rt,
        b"abcdefghbcdefghicdefghijdefghijkefghijklfghijklmghijklmnhijklmnoijklmnopjklmnopqklmnopqrlmnopqrsmnopqrstnopqrstu",
    )?;
    show(&rt, b"")?;
    show_million(&rt)
}
