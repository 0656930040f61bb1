// Lists written in place, from the back, with no scratch.
ghost use Rattle.std.specs.Prelude.{◌≡◌, ◌^◌, ◌≤◌, length, ◌<◌};
ghost use Rattle.lists.specs.Lists.{keep, written, last};
ghost use Rattle.layers.specs.Layer.{size};
ghost use Rattle.orders.specs.Reservoirs.{counts};
ghost use Rattle.orders.specs.InnerPasses.{rank_of, laid_of, arranged_over};

use crate::layer::Layer;
use crate::outputs::Outputs;

// A layer's first outputs over the list, those with top bits 00 replaced by the list's first t numbers, of which there are as
// many.
pub(crate) fn cover(outputs: Outputs, t: u32, list: &mut [u32])
    requires size { length list.old ≤ size outputs.layer.number }
    requires rank { t ≡ rank_of outputs.key outputs.layer.number (length list.old) }
    ensures { list.new ≡ laid_of outputs.key outputs.layer.number (length list.old) list.old }
{
    let quarter = outputs.layer.quarter();
    let mut left = t as usize;
    for p in (0..list.len()).rev() {
        let y = outputs.at(p as u32);
        if y < quarter {
            left -= 1;
            list[p] = list[left];
        } else {
            list[p] = y;
        }
    }
}

// The first of P(4^m) over the list: those of P(4^(m−1)) that it has, then layer m−1 over them.
pub(crate) fn lay(m: u32, key: u64, list: &mut [u32])
    requires layer { m ≤ 15 }
    requires size { length list.old ≤ 4 ^ m }
    ensures { list.new ≡ arranged_over key m (length list.old) list.old }
{
    if m == 0 {
        if list.len() == 1 {
            list[0] = 0;
        }
        return;
    }
    let outputs = Outputs::new(Layer { number: m - 1 }, key);
    let t = outputs.zeros(list.len() as u32);
    lay(m - 1, key, &mut list[..t as usize]);
    cover(outputs, t, list);
}

// The listed numbers below n, in order, over another list. Each number is written, and the next one over it where it is none of
// them: there is no branch, which a processor would not foresee. So the last has to be one of them.
pub(crate) fn gather(list: &[u32], n: u32, out: &mut [u32])
    requires room { length (keep (counts n) list.now) ≤ length out.old }
    requires ends { last list.now < n }
    ensures { out.new ≡ written (keep (counts n) list.now) out.old }
{
    let mut t = 0;
    for x in list {
        out[t] = *x;
        t += usize::from(*x < n);
    }
}
