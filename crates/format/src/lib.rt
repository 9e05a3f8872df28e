// Formats, in specs/: one description gives a reader and a writer, and the laws that they undo each other. Assumes nothing.
#![tactic(auto)]

ghost use Rattle.std.specs.Prelude.{◌≡◌, ◌≤◌};
ghost use Rattle.format.specs.Format.{bytes_for};

// The bytes that n bits take.
pub fn bytes_for(n: usize) -> usize
    requires { n ≤ 4294967295 }
    ensures { result ≡ bytes_for n }
{
    (n + 7) / 8
}
