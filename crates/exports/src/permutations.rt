// Orders for C and Rust. The record is eighteen words that the caller keeps: the key's low and high 32 bits, n, the fifteen
// counters.
ghost use Rattle.std.specs.Prelude.{◌≡◌, ◌^◌, ◌≤◌, take};
ghost use Rattle.lists.specs.Lists.{written};
ghost use Rattle.orders.specs.Orders.{P};
ghost use Rattle.orders.specs.Places.{place_call};
ghost use Rattle.answers.specs.Refusals.{answer_of_option};
ghost use Rattle.exports.specs.Coded.{coded_number, fed_all};
ghost use Rattle.exports.specs.Crossings.{crossed};
ghost use Rattle.exports.specs.InnerDigests.{fed_with};
ghost use Rattle.exports.specs.Orders.{order_layout, order_words, order_as, new_order_crossed, next_order_crossed, order_digest};

use crate::records::Record;
use crate::{parts, records};
use answers::Refusal;
use orders::consistent_permutation::ConsistentPermutation;
use orders::order_walk::OrderWalk;

impl Record for ConsistentPermutation {
    type Word = u32;

    const WORDS: usize = 18;

    ghost count = { order_layout.count };

    ghost over = { λ ws o. written (order_words o) ws };

    ghost read = { order_as };

    fn loaded(ws: &[u32]) -> Self {
        let mut counters = [0; 15];
        counters.copy_from_slice(&ws[3..18]);
        ConsistentPermutation {
            master_key: parts::joined(ws[0], ws[1]),
            n: ws[2],
            counters,
        }
    }

    fn store(self, ws: &mut [u32]) {
        let (low, high) = parts::parted(self.master_key);
        ws[0] = low;
        ws[1] = high;
        ws[2] = self.n;
        ws[3..18].copy_from_slice(&self.counters);
    }
}

// A new order of 0..n.
pub fn perillajamb_order_new(key: u64, n: u32, ws: &mut [u32]) -> u64
    ensures { crossed result ws.new ≡ new_order_crossed key n ws.old }
{
    if ws.len() < ConsistentPermutation::WORDS {
        let limit = u64::from(ConsistentPermutation::N_LIMIT);
        return parts::refused(answers::short_refusal(limit, 0, 0, u64::from(n)));
    }
    records::store_made(ConsistentPermutation::new(n, key), ws)
}

// A state fed with the number that was given.
fn fed_with(d: u64, said: Result<Option<u32>, Refusal>) -> u64
    ensures { result ≡ fed_with d (answer_of_option said) }
{
    match said {
        Ok(Some(y)) => hashes::seq_builder(d, u64::from(y)),
        _ => d,
    }
}

// Its next number.
pub fn perillajamb_order_next(ws: &mut [u32]) -> u64
    ensures { crossed result ws.new ≡ next_order_crossed ws.old }
{
    if ws.len() < ConsistentPermutation::WORDS {
        return parts::refused(Refusal::ShortMemory);
    }
    let mut order = ConsistentPermutation::loaded(ws);
    let said = order.next();
    records::keep(said.is_ok(), order, ws);
    parts::number_or_none(said)
}

// The place of a location in the order of 0..n.
pub fn perillajamb_place(key: u64, n: u32, location: u32) -> u64
    ensures { result ≡ coded_number (place_call key n location) }
{
    parts::number(orders::place::place(key, n, location))
}

fn numbers_fed(n: u32, key: u64, count: u32) -> u64
    requires { n ≤ 2 ^ 30 }
    ensures { result ≡ fed_all 0 (take count (P key n)) }
{
    let order = ConsistentPermutation::new(n, key).unwrap();
    let mut walk = OrderWalk::new(order).unwrap();
    let mut fed = 0;
    for _ in 0..count {
        fed = fed_with(fed, walk.next());
    }
    fed
}

// The first `count` numbers of the order of 0..n, as one number.
pub fn perillajamb_order_digest(key: u64, n: u32, count: u32) -> u64
    ensures { result ≡ coded_number (order_digest key n count) }
{
    if ConsistentPermutation::N_LIMIT < n {
        return parts::refused(Refusal::NAboveLimit);
    }
    numbers_fed(n, key, count) % 0x8000_0000_0000_0000
}
