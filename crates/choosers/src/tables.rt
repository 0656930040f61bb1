// Passes over the bytes of a slot map's slots.
ghost use Rattle.std.specs.Prelude.{◌≡◌, true, ◌≤◌, ◌<◌, length, IfSome, IfNone, get_or, ◌↔◌, Contains};
ghost use Rattle.lists.specs.Lists.{every, not_below};
ghost use Rattle.choosers.specs.Slots.{actives};
ghost use Rattle.choosers.specs.SlotCalls.{at_most_one, slot_limit};
ghost use Rattle.choosers.specs.InnerSlots.{Taken};

// Whether no byte is above 1. It reads all of them, so that the compiler takes many at once.
pub(crate) fn small(bytes: &[u8]) -> bool
    ensures { result ≡ every at_most_one bytes.now }
{
    let mut high: u8 = 0;
    for &byte in bytes {
        high = high.max(byte);
    }
    high <= 1
}

// Whether no byte is 0. It reads all of them, as `small` does.
fn full(block: &[u8]) -> bool
    ensures { result ≡ every (not_below 1) block.now }
{
    let mut low = u8::MAX;
    for &byte in block {
        low = low.min(byte);
    }
    1 <= low
}

// Where to look for the lowest 0 from: past the full blocks of 32 bytes that the table begins with.
fn past_full(bytes: &[u8]) -> usize
    ensures within { result ≤ length bytes.now }
    ensures taken { Taken bytes.now result }
{
    let blocks = bytes.chunks_exact(32).take_while(|block| full(block));
    32 * blocks.count()
}

// The lowest place whose byte is 0.
pub(crate) fn lowest(bytes: &[u8]) -> Option<usize>
    ensures some { IfSome result (λ x. (x < length bytes.now) × (get_or bytes.now x 0 ≡ 0) × Taken bytes.now x) }
    ensures none { IfNone result (Taken bytes.now (length bytes.now)) }
{
    let from = past_full(bytes);
    let more = bytes[from..].iter().position(|&byte| byte == 0)?;
    Some(from + more)
}

// Whether a byte is 1. The last slot is mostly active, so it looks from there.
pub(crate) fn any(bytes: &[u8]) -> bool
    ensures { (result ≡ true) ↔ Contains bytes.now 1 }
{
    bytes.iter().rev().any(|&byte| byte == 1)
}

// The sum of the bytes, all of them 0 or 1.
pub(crate) fn sum(bytes: &[u8]) -> u32
    requires small { every at_most_one bytes.now ≡ true }
    requires few { length bytes.now ≤ slot_limit }
    ensures { result ≡ length (actives bytes.now (length bytes.now)) }
{
    bytes.iter().map(|&byte| u32::from(byte)).sum()
}
