// Feistel rounds on two halves of a few bits.
ghost use Rattle.std.specs.Prelude.{◌≡◌, ◌-◌, ◌*◌, ◌^◌, ◌<◌, bit_xor};
ghost use Rattle.layers.specs.Layer.{start, next_key, round, rounds, over};
ghost use Rattle.layers.specs.KeyedLayers.{new_right};
ghost use Rattle.layers.specs.InnerRounds.{Within};
ghost use Rattle.layers.specs.Permutations.{last_key, prev_key, undo, back};

use crate::RoundKey;

// The two halves, l and r, and the key K of the next round.
#[derive(Clone, Copy)]
pub struct Halves {
    pub l: u32,
    pub r: u32,
    pub key: u64,
}

// How many bits a half has, with the mask of these bits, so that a loop works the mask out once.
#[derive(Clone, Copy)]
pub(crate) struct HalfBits {
    bits: u32,
    mask: u32,
    ghost few: { bits < 16 },
    ghost masks: { mask ≡ 2 ^ bits - 1 },
}

fn product(r: u32, k: RoundKey) -> u64
    ensures { result ≡ bit_xor r k.xor * k.mul }
{
    u64::from(r ^ k.xor) * u64::from(k.mul)
}

impl HalfBits {
    pub(crate) fn new(bits: u32) -> Self
        requires { bits < 16 }
        ensures { result.bits ≡ bits }
    {
        HalfBits {
            bits,
            mask: (1 << bits) - 1,
        }
    }

    // The halves of the input x.
    pub(crate) fn start(self, key: u64, x: u32) -> Halves
        ensures { result ≡ start self.bits key x }
    {
        Halves {
            l: (x >> self.bits) & self.mask,
            r: x & self.mask,
            key,
        }
    }

    // The new right half of a round.
    pub(crate) fn turned(self, l: u32, r: u32, k: RoundKey) -> u32
        ensures { result ≡ new_right self.bits l r k.xor k.mul }
    {
        let p = product(r, k);
        let sum = (p % 0x1_0000_0000 + p / 0x1_0000_0000) % 0x1_0000_0000;
        l ^ ((sum as u32) & self.mask)
    }

    // The key of the next round.
    pub(crate) fn next_key(self, key: u64) -> u64
        ensures { result ≡ next_key self.bits key }
    {
        words::rotate_right(key, 2 * self.bits).wrapping_add(0x9E37_79B9_7F4A_7C15)
    }

    // One round.
    fn round(self, s: Halves) -> Halves
        ensures { result ≡ round self.bits s }
    {
        Halves {
            l: s.r,
            r: self.turned(s.l, s.r, RoundKey::from(s.key)),
            key: self.next_key(s.key),
        }
    }

    // n rounds.
    pub(crate) fn rounds(self, n: u32, s: Halves) -> Halves
        ensures { result ≡ rounds self.bits n s }
    {
        let mut t = s;
        for _ in 0..n {
            t = self.round(t);
        }
        t
    }

    // Two rounds.
    #[inline(always)]
    fn two_rounds(self, s: Halves) -> Halves
        ensures { result ≡ rounds self.bits 2 s }
    {
        let t = self.round(s);
        self.round(t)
    }

    // n rounds, the first four without a loop: a single layer is faster so, and a loop over many inputs works out once what these
    // rounds take of their keys.
    #[inline(always)]
    pub(crate) fn unrolled(self, n: u32, s: Halves) -> Halves
        ensures { result ≡ rounds self.bits n s }
    {
        if n < 2 {
            return self.rounds(n, s);
        }
        let t = self.two_rounds(s);
        if n < 4 {
            return self.rounds(n - 2, t);
        }
        let u = self.two_rounds(t);
        self.rounds(n - 4, u)
    }

    // l over r.
    pub(crate) fn over(self, s: Halves) -> u32
        requires { Within self.bits s }
        ensures { result ≡ over self.bits s }
    {
        (s.l << self.bits) | s.r
    }

    // The key of the round before.
    fn prev_key(self, key: u64) -> u64
        ensures { result ≡ prev_key self.bits key }
    {
        words::rotate_right(key.wrapping_sub(0x9E37_79B9_7F4A_7C15), 64 - 2 * self.bits)
    }

    // One round undone, where the halves hold the key after it.
    fn undo(self, s: Halves) -> Halves
        ensures { result ≡ undo self.bits (prev_key self.bits s.key) s }
    {
        let key = self.prev_key(s.key);
        Halves {
            l: self.turned(s.r, s.l, RoundKey::from(key)),
            r: s.l,
            key,
        }
    }

    // The key after n rounds.
    fn last_key(self, n: u32, key: u64) -> u64
        ensures { result ≡ last_key self.bits n key }
    {
        let mut k = key;
        for _ in 0..n {
            k = self.next_key(k);
        }
        k
    }

    // n rounds undone, the last first; the first of them had that key.
    pub(crate) fn back(self, n: u32, key: u64, s: Halves) -> Halves
        ensures { result ≡ back self.bits n key s }
    {
        let mut t = Halves {
            l: s.l,
            r: s.r,
            key: self.last_key(n, key),
        };
        for _ in 0..n {
            t = self.undo(t);
        }
        t
    }

    // A number back through n rounds.
    pub(crate) fn back_network(self, n: u32, key: u64, y: u32) -> u32
        ensures { result ≡ over self.bits (back self.bits n key (start self.bits key y)) }
    {
        let s = self.start(key, y);
        let t = self.back(n, key, s);
        self.over(t)
    }

    // A number through n rounds.
    pub(crate) fn network(self, n: u32, key: u64, x: u32) -> u32
        ensures { result ≡ over self.bits (rounds self.bits n (start self.bits key x)) }
    {
        let s = self.start(key, x);
        let t = self.unrolled(n, s);
        self.over(t)
    }
}
