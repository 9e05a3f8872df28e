// Patterns of f32: what a reader tests before a pattern becomes a float. Assumes nothing.
#![tactic(auto)]

ghost use Rattle.std.specs.Prelude.{◌≡◌, T};
ghost use Rattle.std.specs.Float.{binary32};
ghost use Rattle.std.specs.Float.Ieee.{of_bits, to_bits};
ghost use Rattle.format_pattern.specs.Pattern.{small, weighs};
ghost use Rattle.ieee.specs.Terms.{Within};

// Finite, and at most 2 in magnitude.
pub fn is_small(b: u32) -> bool
    ensures { result ≡ small b }
{
    b % 0x8000_0000 <= 0x4000_0000
}

// Above 0 and at most 16.
pub fn is_weight(b: u32) -> bool
    ensures { result ≡ weighs b }
{
    0 < b && b <= 0x4180_0000
}

// A component's float: its size is at most 2, and its pattern is b again.
pub fn component(b: u32) -> f32
    requires { T (small b) }
    ensures { (result ≡ of_bits binary32 b) × (to_bits binary32 result ≡ b) × Within result 2 1 }
{
    f32::from_bits(b)
}

// A weight's float: at most 16, and its pattern is b again.
pub fn weight(b: u32) -> f32
    requires { T (weighs b) }
    ensures { (result ≡ of_bits binary32 b) × (to_bits binary32 result ≡ b) × Within result 16 1 }
{
    f32::from_bits(b)
}
