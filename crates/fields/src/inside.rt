// For the layers above: numbers and runs of bytes whose caller has shown that they fit. No user needs this module.
#![tactic(auto, using(crate::proofs::Put::mid_put, crate::proofs::Put::byte_put), unfolding(crate::specs::Fields::le, crate::specs::Fields::le_bytes))]

ghost use Rattle.std.specs.Prelude.{◌≡◌, refl, ℕ, ◌+◌, ◌≤◌, length, replicate};
ghost use Rattle.fields.specs.Fields.{le, le_bytes, put};

// A number of a fixed size, whose bytes stand with the lowest first.
pub trait Number: Copy {
    // How many bytes it has.
    const SIZE: usize;

    ghost SIZE: { ℕ };

    // The type's own for a number, and the number that it is.
    ghost of: { ℕ → Self };

    ghost value: { Self → ℕ };

    // Reads it at a place.
    fn read(s: &[u8], at: usize) -> Self
        requires { at + SIZE ≤ length s.now }
        ensures { result ≡ of (le SIZE s.now at) };

    // Writes it at a place.
    fn write(self, out: &mut [u8], at: usize)
        requires { at + SIZE ≤ length out.old }
        ensures { out.new ≡ put (le_bytes SIZE (value self)) out.old at };

    // From the number that it is, the type's own is had back.
    ghost back: { (x : Self) → of (value x) ≡ x };
}

impl Number for u8 {
    const SIZE: usize = 1;

    ghost SIZE = { 1 };

    ghost of = { λ x. x };

    ghost value = { λ x. x };

    fn read(s: &[u8], at: usize) -> u8 {
        s[at]
    }

    fn write(self, out: &mut [u8], at: usize) {
        out[at] = self;
    }

    ghost back = { λ x. refl };
}

impl Number for u16 {
    const SIZE: usize = 2;

    ghost SIZE = { 2 };

    ghost of = { λ x. x };

    ghost value = { λ x. x };

    fn read(s: &[u8], at: usize) -> u16 {
        u16::from_le_bytes([s[at], s[at + 1]])
    }

    fn write(self, out: &mut [u8], at: usize) {
        out[at..at + 2].copy_from_slice(&self.to_le_bytes());
    }

    ghost back = { λ x. refl };
}

impl Number for u32 {
    const SIZE: usize = 4;

    ghost SIZE = { 4 };

    ghost of = { λ x. x };

    ghost value = { λ x. x };

    fn read(s: &[u8], at: usize) -> u32 {
        u32::from_le_bytes([s[at], s[at + 1], s[at + 2], s[at + 3]])
    }

    fn write(self, out: &mut [u8], at: usize) {
        out[at..at + 4].copy_from_slice(&self.to_le_bytes());
    }

    ghost back = { λ x. refl };
}

impl Number for u64 {
    const SIZE: usize = 8;

    ghost SIZE = { 8 };

    ghost of = { λ x. x };

    ghost value = { λ x. x };

    fn read(s: &[u8], at: usize) -> u64 {
        u64::from_le_bytes([
            s[at],
            s[at + 1],
            s[at + 2],
            s[at + 3],
            s[at + 4],
            s[at + 5],
            s[at + 6],
            s[at + 7],
        ])
    }

    fn write(self, out: &mut [u8], at: usize) {
        out[at..at + 8].copy_from_slice(&self.to_le_bytes());
    }

    ghost back = { λ x. refl };
}

pub fn number_at<N: Number>(s: &[u8], at: usize) -> N
    requires { at + N.SIZE ≤ length s.now }
    ensures { result ≡ N.of (le N.SIZE s.now at) }
{
    N::read(s, at)
}

pub fn put_number_at<N: Number>(out: &mut [u8], at: usize, x: N)
    requires { at + N.SIZE ≤ length out.old }
    ensures { out.new ≡ put (le_bytes N.SIZE (N.value x)) out.old at }
{
    x.write(out, at);
}

// Copies a run of bytes, each once. By a loop, which becomes a `memcpy`: `copy_from_slice` asks at run time whether the two overlap, and calls
// `memmove` where they do, which the host's C library would have to have.
pub fn put_run_at(out: &mut [u8], at: usize, bytes: &[u8])
    requires { at + length bytes.now ≤ length out.old }
    ensures { out.new ≡ put bytes.now out.old at }
{
    for i in 0..bytes.len() {
        out[at + i] = bytes[i];
    }
}

// Zeros, n of them.
pub fn put_zeros_at(out: &mut [u8], at: usize, n: usize)
    requires { at + n ≤ length out.old }
    ensures { out.new ≡ put (replicate n 0) out.old at }
{
    out[at..at + n].fill(0);
}
