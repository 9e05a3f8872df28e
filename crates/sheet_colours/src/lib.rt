// The numbers of a sheet behind its head, tested bit by bit: components, and a tile's colours. Nothing is written.
// Each function answers what the format in crate sheet_format says. Assumes nothing.
#![tactic(auto)]

ghost use Rattle.std.specs.Prelude.{◌≡◌, ◌+◌, ◌*◌, ◌^◌, ◌≤◌, ◌<◌, length, MatchResult};
ghost use Rattle.format.specs.Format.{times};
ghost use Rattle.sheet_format.specs.Sheet.{component, colours};
ghost use Rattle.sheet_format.specs.Proper.{Proper};
ghost use Rattle.sheet_colours.specs.Steps.{number_of, numbered, stopped, step_at, behind};

use sheet_format::Edition;

// Where reading ends: the bit to read next, and how many components were passed.
#[derive(Clone, Copy)]
pub struct At {
    pub bit: usize,
    pub passed: usize,
}

// What may be wrong behind the head: too few bytes, a tile's number of colours, a tile's counts, a component.
#[derive(Clone, Copy, Debug, PartialEq, Eq)]
pub enum Kind {
    Bytes,
    Tiles,
    Counts,
    Component,
}

// What stops it, and how many components it stands behind.
#[derive(Clone, Copy)]
pub struct Fault {
    pub kind: Kind,
    pub passed: usize,
}

// A fault behind so many components.
pub fn stopped(kind: Kind, passed: usize) -> Result<At, Fault>
    ensures { numbered result ≡ stopped (number_of kind) passed }
{
    Err(Fault { kind, passed })
}

// The same behind so many components more.
pub fn behind(passed: usize, step: Result<At, Fault>) -> Result<At, Fault>
    requires { MatchResult step (λ at. passed + at.passed < 2 ^ 64) (λ fault. passed + fault.passed < 2 ^ 64) }
    ensures { numbered result ≡ behind passed (numbered step) }
{
    match step {
        Ok(at) => Ok(At {
            bit: at.bit,
            passed: passed + at.passed,
        }),
        Err(fault) => Err(Fault {
            kind: fault.kind,
            passed: passed + fault.passed,
        }),
    }
}

// n components from bit p.
pub fn components(s: &[u8], p: usize, n: usize) -> Result<At, Fault>
    requires { (length s.now ≤ 65536) × (p ≤ 8 * length s.now) }
    ensures { numbered result ≡ step_at (times n component) s.now p }
{
    let end = 8 * s.len();
    let mut q = p;
    for passed in 0..n {
        if end - q < 32 {
            return stopped(Kind::Bytes, passed);
        }
        if !format_pattern::is_small(bits::get(s, q, 32)) {
            return stopped(Kind::Component, passed);
        }
        q += 32;
    }
    Ok(At { bit: q, passed: n })
}

// n colours of a tile from bit p, whose counts sum to at most the tile's size.
pub fn tile_colours(e: Edition, s: &[u8], p: usize, n: usize) -> Result<At, Fault>
    requires { Proper e × (length s.now ≤ 65536) × (p ≤ 8 * length s.now) }
    ensures { numbered result ≡ step_at (colours e n 0) s.now p }
{
    let end = 8 * s.len();
    let mut at = At { bit: p, passed: 0 };
    let mut sum: u32 = 0;
    for _i in 0..n {
        if end - at.bit < e.each {
            return stopped(Kind::Bytes, at.passed);
        }
        let c = bits::get(s, at.bit, e.each) + 1;
        if e.size < sum + c {
            return stopped(Kind::Counts, at.passed);
        }
        at = behind(at.passed, components(s, at.bit + e.each, 3))?;
        sum += c;
    }
    Ok(at)
}
