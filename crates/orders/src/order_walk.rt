// An order walked over many numbers: the tests of `next` and the record of its layer are made once.
ghost use Rattle.std.specs.Prelude.{◌≡◌, true, ◌^◌, ◌≤◌};
ghost use Rattle.answers.specs.Answers.{after, map_answer};
ghost use Rattle.answers.specs.Refusals.{answer_of, answer_of_option};
ghost use Rattle.orders.specs.Orders.{layer_of};
ghost use Rattle.orders.specs.OrderCalls.{within, next_call, walk_new_call};

use crate::consistent_permutation::ConsistentPermutation;
use crate::outputs::Outputs;
use answers::Refusal;

// An order whose tests are passed, with the record of the layer of n.
#[derive(Clone, Copy)]
pub struct OrderWalk {
    pub order: ConsistentPermutation,
    top: Outputs,
    ghost fit: { within order.counters ≡ true },
    ghost limit: { order.n ≤ 2 ^ 30 },
    ghost layer: { top.layer.number ≡ layer_of order.n },
    ghost key: { top.key ≡ order.master_key },
}

impl OrderWalk {
    // The order, to be walked from where it stands. A counter above its size: refused 12; n above 2^30: refused 1.
    pub fn new(order: ConsistentPermutation) -> Result<Self, Refusal>
        ensures { map_answer (λ w. w.order) (answer_of result) ≡ walk_new_call order }
    {
        order.tested()?;
        let top = order.top();
        Ok(OrderWalk { order, top })
    }

    // The order's next number, as `ConsistentPermutation::next` says it. A counter met at its size in a descent: refused 12, which leaves
    // the walk as it was.
    #[inline]
    pub fn next(&mut self) -> Result<Option<u32>, Refusal>
        ensures { after (answer_of_option result) self.new.order ≡ next_call self.old.order }
    {
        if self.order.n == 0 {
            return Ok(None);
        }
        self.order.first(&self.top)
    }
}
