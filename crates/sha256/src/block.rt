// One block: its words, the schedule, the 64 steps.
ghost use Rattle.std.specs.Prelude.{◌≡◌, ℕ, ◌+◌, ◌*◌, ◌/◌, ◌<◌, ◌≤◌, List, length, take};
ghost use Rattle.model.specs.Sha256 as model;
ghost use Rattle.sha256.specs.Views.{view, Begun};

use crate::words::{Words, add, small0, small1, step_of, sum};

// The hash value before the first block.
pub fn initial() -> Words
    ensures { view result ≡ model.H0 }
{
    Words {
        a: 0x6a09e667,
        b: 0xbb67ae85,
        c: 0x3c6ef372,
        d: 0xa54ff53a,
        e: 0x510e527f,
        f: 0x9b05688c,
        g: 0x1f83d9ab,
        h: 0x5be0cd19,
    }
}

// A constant for each step.
static TABLE: [u32; 64] = [
    0x428a2f98, 0x71374491, 0xb5c0fbcf, 0xe9b5dba5, 0x3956c25b, 0x59f111f1, 0x923f82a4, 0xab1c5ed5,
    0xd807aa98, 0x12835b01, 0x243185be, 0x550c7dc3, 0x72be5d74, 0x80deb1fe, 0x9bdc06a7, 0xc19bf174,
    0xe49b69c1, 0xefbe4786, 0x0fc19dc6, 0x240ca1cc, 0x2de92c6f, 0x4a7484aa, 0x5cb0a9dc, 0x76f988da,
    0x983e5152, 0xa831c66d, 0xb00327c8, 0xbf597fc7, 0xc6e00bf3, 0xd5a79147, 0x06ca6351, 0x14292967,
    0x27b70a85, 0x2e1b2138, 0x4d2c6dfc, 0x53380d13, 0x650a7354, 0x766a0abb, 0x81c2c92e, 0x92722c85,
    0xa2bfe8a1, 0xa81a664b, 0xc24b8b70, 0xc76c51a3, 0xd192e819, 0xd6990624, 0xf40e3585, 0x106aa070,
    0x19a4c116, 0x1e376c08, 0x2748774c, 0x34b0bcb5, 0x391c0cb3, 0x4ed8aa4a, 0x5b9cca4f, 0x682e6ff3,
    0x748f82ee, 0x78a5636f, 0x84c87814, 0x8cc70208, 0x90befffa, 0xa4506ceb, 0xbef9a3f7, 0xc67178f2,
];

// The table, lent from where it lies.
pub fn constants() -> &'static [u32; 64]
    ensures { result.now ≡ model.K }
{
    &TABLE
}

// The word at place i, its highest byte first.
fn word_at(s: &[u8], i: usize) -> u32
    requires { i + 4 ≤ length s.now }
    ensures { result ≡ model.word_at s.now i }
{
    u32::from_be_bytes([s[i], s[i + 1], s[i + 2], s[i + 3]])
}

// The sixteen words of a block, with room for the rest of the schedule.
fn load(block: &[u8]) -> [u32; 64]
    requires { length block.now ≡ 64 }
    ensures { take 16 result ≡ model.words_of 16 block.now }
{
    let mut w = [0u32; 64];
    for n in 0..16 {
        w[n] = word_at(block, 4 * n);
    }
    w
}

// Four words more of the schedule, each from those before it. After twelve turns it has all 64, and nothing is done.
fn expand(w: &mut [u32; 64], turn: usize)
    requires { turn < 16 }
    ensures { (x : List ℕ) → length x ≡ 16 → Begun (4 * turn + 16) x w.old → Begun (4 * turn + 20) x w.new }
{
    if 12 <= turn {
        return;
    }
    let from = 4 * turn;
    for n in 0..4 {
        w[from + n + 16] = add(
            add(
                add(small1(w[from + n + 14]), w[from + n + 9]),
                small0(w[from + n + 1]),
            ),
            w[from + n],
        );
    }
}

// Four steps from the t-th: a turn of four is quicker than four turns.
fn four(s: Words, w: &[u32; 64], t: usize) -> Words
    requires { t + 4 ≤ 64 }
    ensures { (z : model.State) → view s ≡ model.steps t w.now z → view result ≡ model.steps (t + 4) w.now z }
{
    let k = constants();
    let s1 = step_of(s, k[t], w[t]);
    let s2 = step_of(s1, k[t + 1], w[t + 1]);
    let s3 = step_of(s2, k[t + 2], w[t + 2]);
    step_of(s3, k[t + 3], w[t + 3])
}

// The rest of the schedule and the 64 steps, four of both in a turn: that is quicker than the one after the other.
fn rounds(start: Words, words: [u32; 64]) -> Words
    ensures { view result ≡ model.steps 64 (model.extend 48 (take 16 words)) (view start) }
{
    let mut w = words;
    let mut s = start;
    for turn in 0..16 {
        expand(&mut w, turn);
        s = four(s, &w, 4 * turn);
    }
    s
}

// The hash value after one block more.
pub fn compress(s: Words, block: &[u8]) -> Words
    requires { length block.now ≡ 64 }
    ensures { view result ≡ model.compress (view s) block.now }
{
    sum(rounds(s, load(block)), s)
}

// All whole blocks of m.
pub fn blocks(start: Words, m: &[u8]) -> Words
    ensures { view result ≡ model.blocks (length m.now / 64) (view start) m.now }
{
    let mut s = start;
    for block in m.chunks_exact(64) {
        s = compress(s, block);
    }
    s
}
