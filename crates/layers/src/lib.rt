// The layers of document 01: each a permutation of 0..4^(j+1), made of Feistel rounds. With their inverses, which document 02 adds.
#![tactic(auto)]

mod feistel;
mod formulas;

ghost use Rattle.std.specs.Prelude.{◌≡◌, ◌<◌};
ghost use Rattle.answers.specs.Refusals.{answer_of};
ghost use Rattle.layers.specs.Calls.{layer_apply};
ghost use Rattle.layers.specs.Inverses.{layer_invert};
ghost use Rattle.layers.specs.KeyedLayers.{round_key, keyed_layer, keyed, applied, LayerAt, Inverts, InputAt};

use answers::Refusal;
use feistel::{HalfBits, Halves};

// What a round takes of its key: what r is xored with, and what that is multiplied by.
#[derive(Clone, Copy, Debug, PartialEq, Eq)]
pub struct RoundKey {
    pub xor: u32,
    pub mul: u32,
}

impl From<u64> for RoundKey {
    ghost from_gives = { λ key k. k ≡ round_key key };

    fn from(key: u64) -> RoundKey {
        RoundKey {
            xor: (key % 0x1_0000_0000) as u32,
            mul: ((key / 0x1_0000_0000) as u32) | 1,
        }
    }
}

// A layer under a key, made once and applied many times: the bits of a half, the size, how many rounds are more than
// four, what each of the first four rounds takes of its key, and the key after them. An array of the four would be
// read at four constants, so it is no plainer.
#[derive(Clone, Copy, Debug, PartialEq, Eq)]
pub struct KeyedLayer {
    pub half: u32,
    pub size: u32,
    pub more: u32,
    pub first: RoundKey,
    pub second: RoundKey,
    pub third: RoundKey,
    pub fourth: RoundKey,
    pub key: u64,
}

fn keyed_of(layer: u32, key: u64) -> KeyedLayer
    requires { layer < 15 }
    ensures { result ≡ keyed_layer layer key }
{
    let h = formulas::bits(layer) / 2;
    let half = HalfBits::new(h);
    let k1 = half.next_key(key);
    let k2 = half.next_key(k1);
    let k3 = half.next_key(k2);
    KeyedLayer {
        half: h,
        size: formulas::size(layer),
        more: formulas::rounds(layer) - 4,
        first: RoundKey::from(key),
        second: RoundKey::from(k1),
        third: RoundKey::from(k2),
        fourth: RoundKey::from(k3),
        key: half.next_key(k3),
    }
}

impl KeyedLayer {
    // The highest layer.
    pub const LAYER_LIMIT: u32 = 14;

    // A layer under a key; refusal 12 where there is no such layer.
    pub fn new(layer: u32, key: u64) -> Result<KeyedLayer, Refusal>
        ensures { answer_of result ≡ keyed layer key }
    {
        if Self::LAYER_LIMIT < layer {
            return Err(Refusal::Misfit);
        }
        Ok(keyed_of(layer, key))
    }

    // The layer at x, which counts modulo the size: of the record of layer j, layer j at x; of any other, what its numbers give.
    // Inlined, so that a loop over inputs is made for the record that it has.
    #[inline(always)]
    pub fn apply(self, x: u32) -> u32
        ensures any { result ≡ applied self x }
        ensures layer { LayerAt self x result }
    {
        let half = HalfBits::new(self.half % 16);
        let s = half.start(self.key, x);
        let a = half.turned(s.l, s.r, self.first);
        let b = half.turned(s.r, a, self.second);
        let c = half.turned(a, b, self.third);
        let d = half.turned(b, c, self.fourth);
        let four = Halves {
            l: c,
            r: d,
            key: self.key,
        };
        half.over(half.unrolled(self.more, four))
    }

    // The input that gives y, which counts modulo the size: of the record of layer j the inverse of layer j at y; of any other, what its
    // numbers take to y. Inlined, as `apply` is.
    #[inline(always)]
    pub fn invert(self, y: u32) -> u32
        ensures any { Inverts self y result }
        ensures layer { InputAt self y result }
    {
        let half = HalfBits::new(self.half % 16);
        let t = half.back(self.more, self.key, half.start(self.key, y));
        let b = half.turned(t.r, t.l, self.fourth);
        let a = half.turned(t.l, b, self.third);
        let r = half.turned(b, a, self.second);
        let l = half.turned(a, r, self.first);
        half.over(Halves {
            l,
            r,
            key: self.key,
        })
    }
}

// A layer at x; refusal 12 where there is no such layer or x is not below its size. Inlined, so that the answer need not go through
// memory.
#[inline]
pub fn layer_apply(layer: u32, key: u64, x: u32) -> Result<u32, Refusal>
    ensures { answer_of result ≡ layer_apply layer key x }
{
    if KeyedLayer::LAYER_LIMIT < layer {
        return Err(Refusal::Misfit);
    }
    if formulas::size(layer) <= x {
        return Err(Refusal::Misfit);
    }
    let half = HalfBits::new(formulas::bits(layer) / 2);
    Ok(half.network(formulas::rounds(layer), key, x))
}

// The input of a layer whose output is y; refusal 12 where there is no such layer or y is not below its size.
pub fn layer_invert(layer: u32, key: u64, y: u32) -> Result<u32, Refusal>
    ensures { answer_of result ≡ layer_invert layer key y }
{
    if KeyedLayer::LAYER_LIMIT < layer {
        return Err(Refusal::Misfit);
    }
    if formulas::size(layer) <= y {
        return Err(Refusal::Misfit);
    }
    let half = HalfBits::new(formulas::bits(layer) / 2);
    Ok(half.back_network(formulas::rounds(layer), key, y))
}
