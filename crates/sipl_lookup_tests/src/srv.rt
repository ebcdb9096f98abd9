//! What no question shows: the order of no server, the last word of a seed, which decides nothing, and
//! copies. `tests/sessions/servers` has the rest.

use crate::assertions::{expects, expects_equal_at};
use sipl_names::Name;
use sipl_srv::{Draws, Pick, arrange};
use std::alloc::Global;
use std::process::Abort;

// Whether at most 32 picks have an order without places.
fn has_empty_order(alloc: Global, picks: &[Pick]) -> bool {
    if picks.len() > 32 {
        return false;
    }
    match arrange(alloc, picks, &Draws::from_seed(0)) {
        Ok(order) => order.is_empty(),
        Err(_) => false,
    }
}

// The words of the reference implementation pcg32 (O'Neill, pcg-c-basic), of the seeds on stream 0.
fn ends_with(rt: &impl Abort, seed: u64, expected: u32) {
    expects_equal_at(rt, &Draws::from_seed(seed).words()[31], &expected, &seed);
}

fn equals_its_copy(draws: Draws) -> bool {
    let copy = draws;
    copy == draws && Draws::from_words(draws.words()) == Ok(draws)
}

fn pick(alloc: Global, text: &[u8]) -> Option<Pick> {
    Some(Pick {
        priority: 1,
        weight: 2,
        port: 3,
        target: Name::from_text(alloc, text, &Name::root(alloc)).ok()?,
    })
}

fn equals_a_copy(alloc: Global, pick: &Pick, other: &Pick) -> bool {
    match other.dup(alloc) {
        Ok(copy) => copy == *pick,
        Err(_) => false,
    }
}

// Whether the server of a name equals the copy of that of another one.
fn are_equal(alloc: Global, text: &[u8], other: &[u8]) -> bool {
    match (pick(alloc, text), pick(alloc, other)) {
        (Some(pick), Some(other)) => equals_a_copy(alloc, &pick, &other),
        _ => false,
    }
}

#[test]
fn servers_and_words_equal_their_copies(rt: HostRuntime) {
    let alloc = rt.alloc();
    expects(&rt, has_empty_order(alloc, &[]), "the order of no server");
    ends_with(&rt, 0, 0xa1cb_dcd9);
    ends_with(&rt, 42, 0x12a6_b721);
    expects(
        &rt,
        equals_its_copy(Draws::from_seed(9)),
        "the words of a seed",
    );
    let is_other = Draws::from_seed(8) != Draws::from_seed(9);
    expects(&rt, is_other, "the words of another seed");
    expects(
        &rt,
        are_equal(alloc, b"A.Example.com.", b"a.example.com."),
        "a server",
    );
    expects(
        &rt,
        !are_equal(alloc, b"a.example.com.", b"b.example.com."),
        "another server",
    );
}
