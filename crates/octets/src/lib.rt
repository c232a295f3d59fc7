// What every layer does with octets and no document names. No host calls these functions: each caller has tested what they require.
#![tactic(auto)]

ghost use Rattle.std.specs.Prelude.{◌≡◌, ◌+◌, ◌≤◌, length, take, drop};
ghost use Rattle.octets.specs.High.{high};
ghost use Rattle.octets.specs.Same as sameness;
ghost use Rattle.octets.specs.Written.{written};

// Writes all of src over dst, from at on. (By a loop: with `copy_from_slice` the archive for C would need memmove too, and docs/host.md says
// that it needs memcpy and memset alone.)
pub fn write<T: Copy>(dst: &mut [T], at: usize, src: &[T])
    requires { at + length src.now ≤ length dst.old }
    ensures { dst.new ≡ written dst.old at src.now }
{
    for j in 0..src.len() {
        dst[at + j] = src[j];
    }
}

// The first n octets of s, or all where there are fewer.
pub fn front(s: &[u8], n: usize) -> &[u8]
    ensures { result.now ≡ take n s.now }
{
    s.get(..n).unwrap_or(s)
}

// Whether a and b are the same octets.
pub fn same(a: &[u8], b: &[u8]) -> bool
    ensures { result ≡ sameness.same a.now b.now }
{
    a == b
}

// The number that stands in the two octets from `at` on, the high one first.
pub fn two(s: &[u8], at: usize) -> u16
    requires { at + 2 ≤ length s.now }
    ensures { take 2 (drop at s.now) ≡ high 2 result }
{
    u16::from_be_bytes([s[at], s[at + 1]])
}

// .. and in the four from `at` on.
pub fn four(s: &[u8], at: usize) -> u32
    requires { at + 4 ≤ length s.now }
    ensures { take 4 (drop at s.now) ≡ high 4 result }
{
    u32::from_be_bytes([s[at], s[at + 1], s[at + 2], s[at + 3]])
}
