// The library's calls by their names, without the prefix that all have: what a line's call says, on the numbers of the line and on
// what is lent. Calls that are lent the same parts stand in one function; a call is one arm.
use crate::memory::Memory;
use crate::numbers::Given;
use exports::{chooser, permutations, reservoirs, round, slots};

fn numbers_say(name: &str, g: Given) -> Option<u64> {
    Some(match name {
        "splitmix64" => exports::perillajamb_splitmix64(g.a),
        "layer_apply" => exports::perillajamb_layer_apply(g.a, g.low_b, g.low_c),
        "layer_invert" => exports::perillajamb_layer_invert(g.a, g.low_b, g.low_c),
        "seq_builder" => exports::perillajamb_seq_builder(g.a, g.b),
        "prev" => exports::perillajamb_prev(g.a, g.b),
        "into_prev" => exports::perillajamb_into_prev(g.a, g.b),
        "next" => exports::perillajamb_next(g.a, g.b),
        "falling_digest" => exports::perillajamb_falling_digest(g.a, g.b),
        "rising_digest" => exports::perillajamb_rising_digest(g.a, g.b),
        "place" => permutations::perillajamb_place(g.a, g.low_b, g.low_c),
        "order_digest" => permutations::perillajamb_order_digest(g.a, g.low_b, g.low_c),
        "location_state" => slots::perillajamb_location_state(g.a, g.low_b),
        _ => return None,
    })
}

fn records_say(
    name: &str,
    g: Given,
    words: &mut [u32],
    list: &mut [u32],
    table: &mut [u8],
    out: &mut [u32],
) -> Option<u64> {
    Some(match name {
        "order_new" => permutations::perillajamb_order_new(g.a, g.low_b, words),
        "order_next" => permutations::perillajamb_order_next(words),
        "reservoir_new" => {
            reservoirs::perillajamb_reservoir_new(g.a, g.low_b, g.low_c, words, list)
        }
        "reservoir_next" => reservoirs::perillajamb_reservoir_next(words, list),
        "reservoir_grow_layer" => reservoirs::perillajamb_reservoir_grow_layer(words, list),
        "reservoir_sample" => reservoirs::perillajamb_reservoir_sample(words, list, out),
        "reservoir_fits" => reservoirs::perillajamb_reservoir_fits(words, list),
        "round_open" => round::perillajamb_round_open(g.a, g.low_b, g.low_c, words, list),
        "round_admit" => round::perillajamb_round_admit(words, list, table),
        "round_join" => round::perillajamb_round_join(words, list, table),
        "round_withdraw" => round::perillajamb_round_withdraw(g.low_a, words, list, table),
        "round_fits" => round::perillajamb_round_fits(words, list, table),
        _ => return None,
    })
}

fn choosers_say(name: &str, g: Given, words: &mut [u64], list: &mut [u64]) -> Option<u64> {
    Some(match name {
        "chooser_new" => chooser::perillajamb_chooser_new(g.a, g.b, words),
        "chooser_new_with_k" => {
            chooser::perillajamb_chooser_new_with_k(g.a, g.b, g.c, words, list)
        }
        "chooser_grow_k" => chooser::perillajamb_chooser_grow_k(words, list),
        "chooser_next" => chooser::perillajamb_chooser_next(words, list),
        "chooser_shrink_n" => chooser::perillajamb_chooser_shrink_n(words, list),
        "chooser_fits" => chooser::perillajamb_chooser_fits(words, list),
        _ => return None,
    })
}

fn slots_say(name: &str, g: Given, table: &mut [u8], scratch: &mut [u64]) -> Option<u64> {
    Some(match name {
        "slots_add" => slots::perillajamb_slots_add(g.low_a, table),
        "slots_remove" => slots::perillajamb_slots_remove(g.low_a, g.low_b, table),
        "slots_len" => slots::perillajamb_slots_len(g.low_a, table),
        "slots_is_empty" => slots::perillajamb_slots_is_empty(g.low_a, table),
        "slots_is_active" => slots::perillajamb_slots_is_active(g.low_a, g.low_b, table),
        "slots_fits" => slots::perillajamb_slots_fits(g.low_a, table),
        "slots_get" => slots::perillajamb_slots_get(g.a, g.low_b, table, scratch),
        "first_active" => slots::perillajamb_first_active(g.a, g.low_b, table, scratch),
        _ => return None,
    })
}

fn plans_say(name: &str, g: Given, m: &mut Memory) -> Option<u64> {
    Some(match name {
        "round_plan" => round::perillajamb_round_plan(
            &m.words,
            &m.list,
            &m.table,
            &mut m.locations,
            &mut m.terminals,
            &mut m.scratch,
        ),
        "round_replay" => round::perillajamb_round_replay(
            g.a,
            g.low_b,
            g.low_c,
            &m.wide_list,
            &mut m.list,
            &mut m.table,
            &mut m.answers,
            &mut m.locations,
            &mut m.terminals,
            &mut m.scratch,
        ),
        _ => return None,
    })
}

// What the call of that name says; none where no call has it.
pub(crate) fn said(name: &str, g: Given, m: &mut Memory) -> Option<u64> {
    if let Some(said) = numbers_say(name, g) {
        return Some(said);
    }
    if let Some(said) = slots_say(name, g, &mut m.table, &mut m.scratch) {
        return Some(said);
    }
    if let Some(said) = choosers_say(name, g, &mut m.wide_words, &mut m.wide_list) {
        return Some(said);
    }
    let out = &mut m.locations;
    if let Some(said) = records_say(name, g, &mut m.words, &mut m.list, &mut m.table, out) {
        return Some(said);
    }
    plans_say(name, g, m)
}
