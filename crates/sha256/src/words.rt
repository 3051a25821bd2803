// Words of 32 bits: the functions of FIPS 180-4, 4.1.2, and one step of the 64.
ghost use Rattle.std.specs.Prelude.{◌≡◌};
ghost use Rattle.model.specs.Sha256 as model;
ghost use Rattle.sha256.specs.Views.{view};

// The eight words of a hash value, and the eight working variables: fields and no array, since the standard and the definitions name them a to h.
#[derive(Clone, Copy)]
pub struct Words {
    pub a: u32,
    pub b: u32,
    pub c: u32,
    pub d: u32,
    pub e: u32,
    pub f: u32,
    pub g: u32,
    pub h: u32,
}

// The sum modulo 2^32: the library's method, promised by the definitions' sign for it, by which the sums of a step are compared.
pub fn add(x: u32, y: u32) -> u32
    ensures { result ≡ model.◌⊞◌ x y }
{
    x.wrapping_add(y)
}

// Each function of the standard stands by itself under a name of its own, so that it can be read beside the standard's.

// The bits of y where x has a one, and of z where it has none.
fn ch(x: u32, y: u32, z: u32) -> u32
    ensures { result ≡ model.Ch x y z }
{
    (x & y) ^ (!x & z)
}

// The bits that two of the three words have, or all.
fn maj(x: u32, y: u32, z: u32) -> u32
    ensures { result ≡ model.Maj x y z }
{
    (x & y) ^ (x & z) ^ (y & z)
}

// The four sums of rotations, two for the steps and two for the schedule.
fn big0(x: u32) -> u32
    ensures { result ≡ model.Σ0 x }
{
    x.rotate_right(2) ^ x.rotate_right(13) ^ x.rotate_right(22)
}

fn big1(x: u32) -> u32
    ensures { result ≡ model.Σ1 x }
{
    x.rotate_right(6) ^ x.rotate_right(11) ^ x.rotate_right(25)
}

pub fn small0(x: u32) -> u32
    ensures { result ≡ model.σ0 x }
{
    x.rotate_right(7) ^ x.rotate_right(18) ^ (x >> 3)
}

pub fn small1(x: u32) -> u32
    ensures { result ≡ model.σ1 x }
{
    x.rotate_right(17) ^ x.rotate_right(19) ^ (x >> 10)
}

// The two sums of a step.
fn t1(s: Words, k: u32, w: u32) -> u32
    ensures { result ≡ model.T1 (view s) k w }
{
    add(add(add(add(s.h, big1(s.e)), ch(s.e, s.f, s.g)), k), w)
}

fn t2(s: Words) -> u32
    ensures { result ≡ model.T2 (view s) }
{
    add(big0(s.a), maj(s.a, s.b, s.c))
}

// One step, with the constant and the word of the schedule that it takes.
pub fn step_of(s: Words, k: u32, w: u32) -> Words
    ensures { view result ≡ model.step (view s) k w }
{
    let t = t1(s, k, w);
    Words {
        a: add(t, t2(s)),
        b: s.a,
        c: s.b,
        d: s.c,
        e: add(s.d, t),
        f: s.e,
        g: s.f,
        h: s.g,
    }
}

// Word by word.
pub fn sum(x: Words, y: Words) -> Words
    ensures { view result ≡ model.plus (view x) (view y) }
{
    Words {
        a: add(x.a, y.a),
        b: add(x.b, y.b),
        c: add(x.c, y.c),
        d: add(x.d, y.d),
        e: add(x.e, y.e),
        f: add(x.f, y.f),
        g: add(x.g, y.g),
        h: add(x.h, y.h),
    }
}
