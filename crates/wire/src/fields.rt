// Numbers at the front of a value or a buffer, highest byte first.
ghost use Rattle.std.specs.Prelude.{◌≡◌, ℕ, ◌+◌, ◌≤◌, List, [], ◌∷◌, ◌++◌, length, take, drop};
ghost use Rattle.std.proofs.Common.{ap, sym, rules};
ghost use Rattle.std.proofs.Math.Nat.{div-one};
ghost use Rattle.wire.specs.Bytes.{number_in, in_bytes};

// A number that stands in bytes, highest byte first.
pub trait BigEndian: Copy {
    // How many bytes it takes.
    ghost WIDTH: { ℕ };

    const WIDTH: usize;

    // The number that a value is.
    ghost number: { Self → ℕ };

    // The bytes that say it.
    ghost bytes: { Self → List ℕ };

    // The number in the first bytes, and the rest.
    fn split(v: &[u8]) -> (Self, &[u8])
        requires { WIDTH ≤ length v.now }
        ensures value { number result.0 ≡ number_in (take WIDTH v.now) }
        ensures rest { result.1.now ≡ drop WIDTH v.now }
        ensures len { length result.1.now + WIDTH ≡ length v.now };

    // Writes the number over the first bytes.
    fn write(self, out: &mut [u8])
        requires { WIDTH ≤ length out.old }
        ensures { out.new ≡ bytes self ++ drop WIDTH out.old };

    // They are the number in so many bytes.
    ghost is_in_bytes: { (x : Self) → bytes x ≡ in_bytes WIDTH (number x) };
}

impl BigEndian for u8 {
    ghost WIDTH = { 1 };

    const WIDTH: usize = 1;

    ghost number = { λ x. x };

    ghost bytes = { λ x. x ∷ [] };

    ghost is_in_bytes = { λ x. ap (λ b. b ∷ []) (sym (div-one x)) };

    fn split(v: &[u8]) -> (u8, &[u8]) {
        match v {
            [a, rest @ ..] => (*a, rest),
            _ => unreachable(),
        }
    }

    fn write(self, out: &mut [u8]) {
        out[0] = self;
    }
}

impl BigEndian for u16 {
    ghost WIDTH = { 2 };

    const WIDTH: usize = 2;

    ghost number = { λ x. x };

    ghost bytes = { λ x. in_bytes 2 x };

    ghost is_in_bytes = { Prim.search rules };

    fn split(v: &[u8]) -> (u16, &[u8]) {
        match v {
            [a, b, rest @ ..] => (u16::from_be_bytes([*a, *b]), rest),
            _ => unreachable(),
        }
    }

    fn write(self, out: &mut [u8]) {
        out[..2].copy_from_slice(&self.to_be_bytes());
    }
}

impl BigEndian for u32 {
    ghost WIDTH = { 4 };

    const WIDTH: usize = 4;

    ghost number = { λ x. x };

    ghost bytes = { λ x. in_bytes 4 x };

    ghost is_in_bytes = { Prim.search rules };

    fn split(v: &[u8]) -> (u32, &[u8]) {
        match v {
            [a, b, c, d, rest @ ..] => (u32::from_be_bytes([*a, *b, *c, *d]), rest),
            _ => unreachable(),
        }
    }

    fn write(self, out: &mut [u8]) {
        out[..4].copy_from_slice(&self.to_be_bytes());
    }
}

impl BigEndian for u64 {
    ghost WIDTH = { 8 };

    const WIDTH: usize = 8;

    ghost number = { λ x. x };

    ghost bytes = { λ x. in_bytes 8 x };

    ghost is_in_bytes = { Prim.search rules };

    fn split(v: &[u8]) -> (u64, &[u8]) {
        match v {
            [a, b, c, d, e, f, g, h, rest @ ..] => {
                (u64::from_be_bytes([*a, *b, *c, *d, *e, *f, *g, *h]), rest)
            }
            _ => unreachable(),
        }
    }

    fn write(self, out: &mut [u8]) {
        out[..8].copy_from_slice(&self.to_be_bytes());
    }
}
