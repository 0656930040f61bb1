// Samples in the places of a lent list: whether they ascend, one more of them, their lowering, and all of them at once.
ghost use Rattle.std.specs.Prelude.{◌≡◌, ℕ, ◌+◌, ◌-◌, ◌^◌, ◌<◌, ◌≤◌, map, length};
ghost use Rattle.choosers.specs.Choosers.{g, largest_g, S, moved, lower_at};
ghost use Rattle.choosers.specs.ChooserCalls.{ascends};
ghost use Rattle.choosers.specs.InnerChoosers.{grow_in, OwnOr, Owns};
ghost use Rattle.choosers.specs.InnerHolding.{Kept, Rises, Under};

use hashes::ConsistentHasher;

// Whether the samples ascend strictly below n.
pub(crate) fn rising(samples: &[u64], n: u64) -> bool
    ensures { result ≡ ascends samples.now (length samples.now) n }
{
    let mut bound = n;
    for &x in samples.iter().rev() {
        if bound <= x {
            return false;
        }
        bound = x;
    }
    true
}

// g(i, n). A type for an n of at most 2^62 would be made and opened again at each call that asks for one, so it is a `requires`.
pub(crate) fn get_sample(state: u64, i: u64, n: u64) -> u64
    requires { (i < n) × (n ≤ 2 ^ 62) }
    ensures { result ≡ g state i n }
{
    let hasher = ConsistentHasher::new(hashes::seq_builder(state, i));
    i + hasher.prev(n - i).unwrap().unwrap()
}

// How a place holds a sample: alone, or with something of its sequence beside it.
pub(crate) trait Holding {
    // the sample of a place
    ghost sample: { ℕ → ℕ };

    // what a place keeps of its sequence: of a state, an index and the place
    ghost keeps: { ℕ → ℕ → ℕ → Type 0 };

    // every sample is below it
    ghost limit: { ℕ };

    fn sample(held: u64) -> u64
        ensures { result ≡ sample held };

    // g(i, m), for an m that the sample of place i is not below.
    fn own(state: u64, i: u64, held: u64, m: u64) -> u64
        requires { (i < m) × (m ≤ sample held) × (m ≤ limit) × keeps state i held }
        ensures { result ≡ g state i m };

    // A place that holds the sample b, and keeps that its sequence's own value below b + 1 is v.
    fn hold(v: u64, b: u64) -> u64
        requires { (v ≤ b) × (b < limit) }
        ensures sample { sample result ≡ b }
        ensures keeps { (s i : ℕ) → v ≡ g s i (b + 1) → keeps s i result };
}

// Samples alone, as a caller's list has them.
pub(crate) struct Alone;

impl Holding for Alone {
    ghost sample = { λ e. e };

    ghost keeps = { λ s i e. Unit {0} };

    ghost limit = { 2 ^ 62 };

    fn sample(held: u64) -> u64 {
        held
    }

    fn own(state: u64, i: u64, _held: u64, m: u64) -> u64 {
        get_sample(state, i, m)
    }

    fn hold(_v: u64, b: u64) -> u64 {
        b
    }
}

// Lowers the samples from m, and answers the index.
pub(crate) fn lower<P: Holding>(state: u64, list: &mut [u64], from: u64) -> usize
    requires few { length list.old ≤ from }
    requires small { from ≤ P.limit }
    requires kept { Kept P.keeps state list.old (length list.old) }
    requires rises { Rises (map P.sample list.old) (length list.old) }
    requires under { Under (map P.sample list.old) (length list.old) from }
    ensures lowered { moved (map P.sample list.new) result ≡ lower_at state (length list.old) (map P.sample list.old) from }
    ensures kept { Kept P.keeps state list.new (length list.new) }
{
    let mut m = from;
    for i in (0..list.len()).rev() {
        let held = list[i];
        if P::sample(held) < m {
            return i + 1;
        }
        let v = P::own(state, i as u64, held, m);
        m = if i == 0 {
            v
        } else {
            v.max(P::sample(list[i - 1]))
        };
        list[i] = P::hold(v, m);
    }
    0
}

// One sample more, in the last place of the list, after those in the places before; and the index where it came in.
pub(crate) fn grow<P: Holding>(state: u64, n: u64, list: &mut [u64]) -> usize
    requires some { 0 < length list.old }
    requires few { length list.old ≤ n }
    requires small { (n ≤ P.limit) × (n ≤ 2 ^ 62) }
    requires kept { Kept P.keeps state list.old (length list.old - 1) }
    requires rises { Rises (map P.sample list.old) (length list.old - 1) }
    requires below { Under (map P.sample list.old) (length list.old) n }
    ensures grown { moved (map P.sample list.new) result ≡ grow_in state (length list.old - 1) (map P.sample list.old) n }
    ensures kept { Kept P.keeps state list.new (length list.new) }
{
    let k = list.len() - 1;
    let v = get_sample(state, k as u64, n);
    if k == 0 || P::sample(list[k - 1]) < v {
        list[k] = P::hold(v, v);
        return k;
    }
    let last = P::sample(list[k - 1]);
    let i = lower::<P>(state, &mut list[..k], last);
    list[k] = P::hold(v, last);
    i
}

// Each place i, which holds g(i, m) already or m, comes to hold g(i, m). The answer is the largest of them.
fn refresh(state: u64, m: u64, list: &mut [u64]) -> u64
    requires { (length list.old ≤ m) × (m ≤ 2 ^ 62) × OwnOr state list.old (length list.old) m }
    ensures { (result ≡ largest_g state (length list.old) m) × Owns state list.new (length list.old) m }
{
    let mut high: u64 = 0;
    for (i, x) in list.iter_mut().enumerate() {
        if *x == m {
            *x = get_sample(state, i as u64, m);
        }
        high = high.max(*x);
    }
    high
}

// S(k, n) in the k places of a list, from the last down.
pub(crate) fn choose(state: u64, n: u64, list: &mut [u64])
    requires { (length list.old ≤ n) × (n ≤ 2 ^ 62) }
    ensures { list.new ≡ S state (length list.old) n }
{
    list.fill(n);
    let mut last = n;
    for i in (0..list.len()).rev() {
        last = refresh(state, last, &mut list[..=i]);
        list[i] = last;
    }
}
