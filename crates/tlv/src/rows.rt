// Rows of 32 bytes, each a fixed number of bytes after one of some places of a stretch, and tests of every row or pair of rows.
ghost use Rattle.std.specs.Prelude.{◌≡◌, ℕ, Bool, ◌&&◌, map, ◌+◌, ◌≤◌, ◌<◌, length, take, drop, slice_index};
ghost use Rattle.model.specs.Lists.{eq_bytes, among, distinct};
ghost use Rattle.tlv.specs.Rows.{rows, row, Within, times, often, each_few, mark, alike};

use crate::numbers::{get32, get64};

// The rows so many bytes after some places of a stretch, each of which lies in it.
#[derive(Clone, Copy)]
struct Rows<'a> {
    stretch: &'a [u8],
    places: &'a [usize],
    off: usize,
    ghost within: { Within off places.now stretch.now },
}

// Whether the 8 bytes at two places are the same, and what came before them too.
fn same_word(a: &[u8], p: usize, b: &[u8], q: usize, before: bool) -> bool
    requires { (p + 8 ≤ length a.now) × (q + 8 ≤ length b.now) }
    ensures { result ≡ (eq_bytes (take 8 (drop p a.now)) (take 8 (drop q b.now)) && before) }
{
    if get64(a, p) != get64(b, q) {
        return false;
    }
    before
}

// Whether two rows are the same, by four numbers of 8 bytes.
pub fn same_row(a: &[u8], p: usize, b: &[u8], q: usize) -> bool
    requires { (p + 32 ≤ length a.now) × (q + 32 ≤ length b.now) }
    ensures { result ≡ eq_bytes (row p a.now) (row q b.now) }
{
    let one = same_word(a, p, b, q, true);
    let two = same_word(a, p + 8, b, q + 8, one);
    let three = same_word(a, p + 16, b, q + 16, two);
    same_word(a, p + 24, b, q + 24, three)
}

// Whether the row at a place is v.
pub fn row_is(s: &[u8], p: usize, v: &[u8]) -> bool
    requires { p + 32 ≤ length s.now }
    ensures { result ≡ eq_bytes (row p s.now) v.now }
{
    if v.len() != 32 {
        return false;
    }
    same_row(s, p, v, 0)
}

// The mark of the row at a place.
fn mark_of(s: &[u8], p: usize) -> u32
    requires { p + 32 ≤ length s.now }
    ensures { result ≡ mark (row p s.now) }
{
    let low = get32(s, p) + get32(s, p + 4) + get32(s, p + 8) + get32(s, p + 12);
    let high = get32(s, p + 16) + get32(s, p + 20) + get32(s, p + 24) + get32(s, p + 28);
    ((low + high) % 4294967296) as u32
}

// How often a mark stands there. Counted in 32 bits, as many at a time as are compared: `filter(..).count()` counts in 64.
fn alike_in(marks: &[u32], x: u32) -> u32
    requires { length marks.now ≤ 32 }
    ensures { result ≡ alike x marks.now }
{
    let mut k = 0;
    for m in marks {
        if *m == x {
            k += 1;
        }
    }
    k
}

impl<'a> Rows<'a> {
    ghost use Rattle.tlv.specs.RowsOf.{rows_of};

    // Row i.
    fn at(&self, i: usize) -> &'a [u8]
        requires { i < length self.now.places.now }
        ensures { result.now ≡ row (slice_index self.now.places.now i + self.now.off) self.now.stretch.now }
    {
        let p = self.places[i] + self.off;
        &self.stretch[p..p + 32]
    }

    // The rows behind row i.
    fn behind(&self, i: usize) -> Rows<'a>
        requires { i < length self.now.places.now }
        ensures { rows_of result ≡ drop (i + 1) (rows_of self.now) }
    {
        Rows {
            stretch: self.stretch,
            places: &self.places[i + 1..],
            off: self.off,
        }
    }

    // How many of them are v.
    fn times(&self, v: &[u8]) -> usize
        ensures { result ≡ times v.now (rows_of self.now) }
    {
        let mut k = 0;
        for p in self.places {
            if row_is(self.stretch, *p + self.off, v) {
                k += 1;
            }
        }
        k
    }

    // Whether row i stands behind its own place `most` times or more.
    fn is_often(&self, i: usize, most: usize) -> bool
        requires { i < length self.now.places.now }
        ensures { result ≡ often most (drop i (rows_of self.now)) }
    {
        most <= self.behind(i).times(self.at(i))
    }

    // Whether each row stands there at most `most` times, by a test of one row that agrees with `is_often`. It is enough to count a row's like behind it:
    // the first of its like then counts them all. And of the last `most` rows none can stand there more often from its own place on.
    fn few_by<F: Fn(usize) -> bool>(&self, most: usize, is_often: F) -> bool
        requires may { (i : ℕ) → i < length self.now.places.now → F.pre is_often i }
        requires tells { (i : ℕ) (b : Bool) → i < length self.now.places.now → F.post is_often i b → b ≡ often most (drop i (rows_of self.now)) }
        ensures { result ≡ each_few most (rows_of self.now) }
    {
        for i in 0..self.places.len().saturating_sub(most) {
            if is_often(i) {
                return false;
            }
        }
        true
    }

    // The marks of at most 32 rows.
    fn marks(&self) -> [u32; 32]
        requires { length self.now.places.now ≤ 32 }
        ensures { take (length self.now.places.now) result ≡ map mark (rows_of self.now) }
    {
        let mut marks = [0u32; 32];
        for (i, p) in self.places.iter().enumerate() {
            marks[i] = mark_of(self.stretch, *p + self.off);
        }
        marks
    }

    // By the rows alone.
    fn few_by_rows(&self, most: usize) -> bool
        ensures { result ≡ each_few most (rows_of self.now) }
    {
        self.few_by(most, |i| self.is_often(i, most))
    }

    // The same as `is_often`. The row is counted only where its mark stands behind it so often: rows that are the same have the same mark.
    fn is_often_marked(&self, i: usize, most: usize, marks: &[u32]) -> bool
        requires within { (i < length self.now.places.now) × (length self.now.places.now ≤ 32) }
        requires marks_value { marks.now ≡ map mark (rows_of self.now) }
        ensures { result ≡ often most (drop i (rows_of self.now)) }
    {
        most <= alike_in(&marks[i + 1..], marks[i]) as usize && self.is_often(i, most)
    }

    // The same as `few_by_rows` for at most 32 rows, most of which are told apart by their marks.
    fn few_by_marks(&self, most: usize) -> bool
        requires { length self.now.places.now ≤ 32 }
        ensures { result ≡ each_few most (rows_of self.now) }
    {
        let all = self.marks();
        let marks = &all[..self.places.len()];
        self.few_by(most, |i| self.is_often_marked(i, most, marks))
    }
}

// How many of the rows from a place on are v.
pub fn times_in(s: &[u8], places: &[usize], off: usize, from: usize, v: &[u8]) -> usize
    requires { Within off places.now s.now }
    ensures { result ≡ times v.now (drop from (rows off places.now s.now)) }
{
    Rows {
        stretch: s,
        places: &places[from.min(places.len())..],
        off,
    }
    .times(v)
}

// Whether one of the rows is v: it stands there at least once.
pub fn is_among(s: &[u8], places: &[usize], off: usize, v: &[u8]) -> bool
    requires { Within off places.now s.now }
    ensures { result ≡ among v.now (rows off places.now s.now) }
{
    Rows {
        stretch: s,
        places,
        off,
    }
    .times(v)
        != 0
}

// Whether each row stands there at most `most` times. The marks pay where there are more than a few rows; there is room for 32.
// The parameters come one by one, in registers: a `Rows` would go through memory.
fn few_among(s: &[u8], places: &[usize], off: usize, most: usize) -> bool
    requires { Within off places.now s.now }
    ensures { result ≡ each_few most (rows off places.now s.now) }
{
    let rows = Rows {
        stretch: s,
        places,
        off,
    };
    if 4 < places.len() && places.len() <= 32 {
        rows.few_by_marks(most)
    } else {
        rows.few_by_rows(most)
    }
}

// The same. Nothing is called where there are no more rows than that: `few_among`, which two functions call, stays a function of its own, and these
// two become parts of their callers.
pub fn each_few(s: &[u8], places: &[usize], off: usize, most: usize) -> bool
    requires { Within off places.now s.now }
    ensures { result ≡ each_few most (rows off places.now s.now) }
{
    places.len() <= most || few_among(s, places, off, most)
}

// Whether no two rows are the same: each stands there at most once.
pub fn all_distinct(s: &[u8], places: &[usize], off: usize) -> bool
    requires { Within off places.now s.now }
    ensures { result ≡ distinct (rows off places.now s.now) }
{
    places.len() <= 1 || few_among(s, places, off, 1)
}
