// Fields of bits in a slice of bytes, most significant bit first: read and written by whole bytes.
// What a field holds is defined bit by bit in specs/Bits.antt. Assumes nothing.
#![tactic(auto)]

ghost use Rattle.std.specs.Prelude.{◌≡◌, ◌+◌, ◌-◌, ◌*◌, ◌≤◌, ◌%◌, ◌^◌, ◌<◌, length, take, drop};
ghost use Rattle.bits.specs.Bits.{bits, num, field_at, bits_of, written};
ghost use Rattle.std.proofs.lemmas.List.Edits.{sets};

// The bytes from `first` up to `end` as one number, the first byte the highest.
fn gather(s: &[u8], first: usize, end: usize) -> u64
    requires { (first ≤ end) × (end ≤ first + 5) × (end ≤ length s.now) }
    ensures { result ≡ num (bits (take (end - first) (drop first s.now))) }
{
    let mut v: u64 = 0;
    for j in first..end {
        v = v * 256 + s[j] as u64;
    }
    v
}

// The number that k bits from bit p spell.
pub fn get(s: &[u8], p: usize, k: usize) -> u32
    requires { (k ≤ 32) × (p + k ≤ 8 * length s.now) × (p + k ≤ 524288) }
    ensures { result ≡ field_at (bits s.now) p k }
{
    let end = (p + k + 7) / 8;
    let v = gather(s, p / 8, end);
    let spare = 8 * end - (p + k);
    ((v >> spare) % (1u64 << k)) as u32
}

// The bytes from `first` up to `end` become those of x, the first byte the highest.
fn spell(s: &mut [u8], first: usize, end: usize, x: u64)
    requires { (first ≤ end) × (end ≤ first + 5) × (end ≤ length s.old) }
    ensures { bits s.new ≡ sets (bits s.old) (8 * first) (bits_of (8 * (end - first)) x) }
{
    for j in first..end {
        let behind = 8 * (end - 1 - j);
        s[j] = ((x >> behind) % 256) as u8;
    }
}

// A number of at most 7 bits, then the k bits of v, then `spare` bits, as one number.
fn joined(head: u64, k: usize, v: u64, spare: usize, tail: u64) -> u64
    requires { (head < 2 ^ 7) × (k ≤ 32) × (spare ≤ 7) × (tail < 2 ^ spare) }
    ensures { result ≡ (head * 2 ^ k + v % 2 ^ k) * 2 ^ spare + tail }
{
    let high = (head << k) + v % (1u64 << k);
    (high << spare) + tail
}

// The k bits from bit p become those of v. The bytes at both ends keep their other bits.
pub fn put(s: &mut [u8], p: usize, k: usize, v: u32)
    requires { (k ≤ 32) × (p + k ≤ 8 * length s.old) × (p + k ≤ 524288) }
    ensures { bits s.new ≡ written (bits s.old) p k v }
{
    let first = p / 8;
    let end = (p + k + 7) / 8;
    let spare = 8 * end - (p + k);
    let head = get(s, 8 * first, p % 8);
    let tail = get(s, p + k, spare);
    let x = joined(head as u64, k, v as u64, spare, tail as u64);
    spell(s, first, end, x);
}
