// A layer under a key, for many outputs: its record is made once.
ghost use Rattle.std.specs.Prelude.{◌≡◌};
ghost use Rattle.layers.specs.Layer.{layer};
ghost use Rattle.layers.specs.KeyedLayers.{keyed_layer};

use crate::layer::Layer;
use layers::KeyedLayer;

#[derive(Clone, Copy)]
pub(crate) struct Outputs {
    pub(crate) layer: Layer,
    pub(crate) key: u64,
    keyed: KeyedLayer,
    ghost made: { keyed ≡ keyed_layer layer.number key },
}

impl Outputs {
    pub(crate) fn new(layer: Layer, key: u64) -> Self
        ensures layer { result.layer.number ≡ layer.number }
        ensures key { result.key ≡ key }
    {
        let keyed = KeyedLayer::new(layer.number, key).unwrap();
        Outputs { layer, key, keyed }
    }

    // The output of an input.
    #[inline(always)]
    pub(crate) fn at(self, x: u32) -> u32
        ensures { result ≡ layer self.layer.number self.key x }
    {
        self.keyed.apply(x)
    }

    // The same by a call. A loop that mostly ends at its first output is slower where the compiler takes several at once.
    #[inline(never)]
    pub(crate) fn at_by_call(&self, x: u32) -> u32
        ensures { result ≡ layer self.now.layer.number self.now.key x }
    {
        self.at(x)
    }
}
