// The fifteen layers by their numbers, 0 to 14.
ghost use Rattle.std.specs.Prelude.{◌≡◌, ◌^◌, ◌<◌, ◌≤◌, MatchOption};
ghost use Rattle.layers.specs.Layer.{size, layer};
ghost use Rattle.layers.specs.Inverses.{input_of};
ghost use Rattle.orders.specs.Orders.{layer_of};

#[derive(Clone, Copy)]
pub(crate) struct Layer {
    pub(crate) number: u32,
    ghost below: { number < 15 },
}

impl Layer {
    // The layer of that number, if there is one.
    pub(crate) fn new(number: u32) -> Option<Self>
        ensures { MatchOption result (15 ≤ number) (λ j. j.number ≡ number) }
    {
        if number < 15 {
            Some(Layer { number })
        } else {
            None
        }
    }

    // The layer of n.
    pub(crate) fn of(n: u32) -> Self
        requires { n ≤ 2 ^ 30 }
        ensures { result.number ≡ layer_of n }
    {
        if n <= 1 {
            return Layer { number: 0 };
        }
        Layer {
            number: (31 - (n - 1).leading_zeros()) / 2,
        }
    }

    // How many inputs it has, and outputs.
    pub(crate) fn size(self) -> u32
        ensures { result ≡ size self.number }
    {
        1 << (2 * self.number + 2)
    }

    // Outputs below this have top bits 00.
    pub(crate) fn quarter(self) -> u32
        ensures { result ≡ 4 ^ self.number }
    {
        1 << (2 * self.number)
    }

    // The output of one input: to make a record of the layer for it costs more.
    pub(crate) fn output(self, key: u64, x: u32) -> u32
        requires { x < size self.number }
        ensures { result ≡ layer self.number key x }
    {
        layers::layer_apply(self.number, key, x).unwrap()
    }

    // The input of one output.
    pub(crate) fn input(self, key: u64, y: u32) -> u32
        requires { y < size self.number }
        ensures { result ≡ input_of self.number key y }
    {
        layers::layer_invert(self.number, key, y).unwrap()
    }
}
