// Text into lent bytes: words, numbers, and the lines that `fit` prints. Each function gives the place behind what it wrote: a struct of
// the slice and the place would have to say in each clause, beside what it wrote, that it holds the same slice, as long as before. And the
// lines are ASCII without heap: std's `write!` says what it writes as text of chars, where the lines are defined as bytes. Assumes nothing.
#![tactic(auto)]

ghost use Rattle.std.specs.Prelude.{◌≡◌, ◌+◌, ◌≤◌, ◌<◌, ◌++◌, length};
ghost use Rattle.io.specs.Digits.{last_digits, hex_digit_ascii};
ghost use Rattle.fit_lines.specs.Lines.{Stored, width_of, decimal, last, pair, head_line, tile_line, load_line, blank_line, refused_line};

// A word from place `at` on.
fn put_word(out: &mut [u8], at: usize, word: &[u8]) -> usize
    requires { at + length word.now ≤ length out.old }
    ensures { Stored out.old out.new at result word.now }
{
    let next = at + word.len();
    out[at..next].copy_from_slice(word);
    next
}

// A digit in ASCII.
fn glyph(d: u32) -> u8
    requires { d < 16 }
    ensures { result ≡ hex_digit_ascii d }
{
    if d < 10 {
        b'0' + d as u8
    } else {
        b'a' + (d - 10) as u8
    }
}

// The last k digits of n in `base`, the most significant first.
fn put_digits(out: &mut [u8], at: usize, n: u32, base: u32, k: usize) -> usize
    requires { (at + k ≤ length out.old) × (0 < base) × (base ≤ 16) }
    ensures { Stored out.old out.new at result (last_digits base k n) }
{
    let mut rest = n;
    for i in (0..k).rev() {
        let j = at + i;
        out[j] = glyph(rest % base);
        rest /= base;
    }
    at + k
}

// How many decimal digits a number below 10,000 has.
fn width(n: u32) -> usize
    ensures { result ≡ width_of n }
{
    if n < 10 {
        return 1;
    }
    if n < 100 {
        return 2;
    }
    if n < 1000 {
        return 3;
    }
    4
}

// A word, then a number in decimal.
fn put_field(out: &mut [u8], at: usize, word: &[u8], n: u32) -> usize
    requires { at + (length word.now + 4) ≤ length out.old }
    ensures { Stored out.old out.new at result (word.now ++ decimal n) }
{
    let next = put_word(out, at, word);
    put_digits(out, next, n, 10, width(n))
}

// The last field of a line.
fn put_last(out: &mut [u8], at: usize, word: &[u8], n: u32) -> usize
    requires { at + (length word.now + 5) ≤ length out.old }
    ensures { Stored out.old out.new at result (last word.now n) }
{
    let next = put_field(out, at, word, n);
    put_word(out, next, b"\n")
}

// A line of two fields.
fn put_pair(out: &mut [u8], at: usize, word: &[u8], n: u32, more: &[u8], m: u32) -> usize
    requires { at + (length word.now + length more.now + 9) ≤ length out.old }
    ensures { Stored out.old out.new at result (pair word.now n more.now m) }
{
    let next = put_field(out, at, word, n);
    put_last(out, next, more, m)
}

pub fn put_head(out: &mut [u8], at: usize, tiles: u32, subs: u32) -> usize
    requires { at + 28 ≤ length out.old }
    ensures { Stored out.old out.new at result (head_line tiles subs) }
{
    put_pair(out, at, b"tiles ", tiles, b" subpalettes ", subs)
}

// What the line of a tile says: its subpalette, its distance as a pattern, and the next best subpalette.
#[derive(Clone, Copy)]
pub struct Found {
    pub sub: u32,
    pub dist: u32,
    pub next: u32,
}

pub fn put_tile(out: &mut [u8], at: usize, tile: u32, found: Found) -> usize
    requires { at + 43 ≤ length out.old }
    ensures { Stored out.old out.new at result (tile_line tile found) }
{
    let a = put_field(out, at, b"tile ", tile);
    let b = put_field(out, a, b" sub ", found.sub);
    let c = put_word(out, b, b" dist ");
    let d = put_digits(out, c, found.dist, 16, 8);
    put_last(out, d, b" next ", found.next)
}

pub fn put_load(out: &mut [u8], at: usize, sub: u32, n: u32) -> usize
    requires { at + 15 ≤ length out.old }
    ensures { Stored out.old out.new at result (load_line sub n) }
{
    put_pair(out, at, b"load ", sub, b" ", n)
}

pub fn put_blank(out: &mut [u8], at: usize, n: u32) -> usize
    requires { at + 11 ≤ length out.old }
    ensures { Stored out.old out.new at result (blank_line n) }
{
    put_last(out, at, b"blank ", n)
}

pub fn put_refused(out: &mut [u8], at: usize, n: u32) -> usize
    requires { at + 13 ≤ length out.old }
    ensures { Stored out.old out.new at result (refused_line n) }
{
    put_last(out, at, b"refused ", n)
}
