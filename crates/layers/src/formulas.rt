// A layer's bits, size and rounds, worked out from its number.
ghost use Rattle.std.specs.Prelude.{◌≡◌, ◌<◌};
ghost use Rattle.layers.specs.Layer.{bits, size, round_count};

pub(crate) fn bits(layer: u32) -> u32
    requires { layer < 15 }
    ensures { result ≡ bits layer }
{
    2 * layer + 2
}

pub(crate) fn size(layer: u32) -> u32
    requires { layer < 15 }
    ensures { result ≡ size layer }
{
    1 << bits(layer)
}

pub(crate) fn rounds(layer: u32) -> u32
    ensures { result ≡ round_count layer }
{
    match layer {
        0 => 12,
        1 => 10,
        2 => 6,
        _ => 4,
    }
}
