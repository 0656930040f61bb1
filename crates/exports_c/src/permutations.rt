// Orders.
ghost use Rattle.std.specs.Prelude.{◌≡◌};
ghost use Rattle.orders.specs.Places.{place_call};
ghost use Rattle.exports.specs.Coded.{coded_number};
ghost use Rattle.exports.specs.Crossings.{crossed};
ghost use Rattle.exports.specs.Orders.{new_order_crossed, next_order_crossed, order_digest};

// A new order of 0..n.
#[unsafe(no_mangle)]
pub extern "C" fn perillajamb_order_new(key: u64, n: u32, ws: &mut [u32]) -> u64
    ensures { crossed result ws.new ≡ new_order_crossed key n ws.old }
{
    exports::permutations::perillajamb_order_new(key, n, ws)
}

// Its next number.
#[unsafe(no_mangle)]
pub extern "C" fn perillajamb_order_next(ws: &mut [u32]) -> u64
    ensures { crossed result ws.new ≡ next_order_crossed ws.old }
{
    exports::permutations::perillajamb_order_next(ws)
}

// The place of a location in the order of 0..n.
#[unsafe(no_mangle)]
pub extern "C" fn perillajamb_place(key: u64, n: u32, location: u32) -> u64
    ensures { result ≡ coded_number (place_call key n location) }
{
    exports::permutations::perillajamb_place(key, n, location)
}

// The first `count` numbers of the order of 0..n, as one number.
#[unsafe(no_mangle)]
pub extern "C" fn perillajamb_order_digest(key: u64, n: u32, count: u32) -> u64
    ensures { result ≡ coded_number (order_digest key n count) }
{
    exports::permutations::perillajamb_order_digest(key, n, count)
}
