// Claims, at once and page by page, of services that were closed.
use crate::calls::Call::{Find, Hold, Load, Remove};
use crate::calls::{Call, Found, play};
use crate::values::{
    ADDRESS_2, BOB, OVER_TCP, SERVER_1, SERVER_2, Scene, claims, close, events, is_equal, keep,
    new_service, scene_of, service_by, turn_page,
};
use sipl_book::{Edit, Event, Page};
use sipl_choice::Transport::{self, Tcp, Udp};
use sipl_outages::Held;
use sipl_service::ClaimFault::{self, Doubled, Gap, NotOurs, Unclaimed};
use sipl_service::{Ledger, Pass, Receipt, Receipts};
use std::alloc::Global;
use std::collections::VecDeque;
use std::process::Abort;
use std::sync::Wait;
use std::test::*;

// ---- services that are closed

// Calls of two callers.
type Calls = &'static [(usize, Call)];

// A service for a client of these transports, by this policy, and the calls of its callers, page by page.
type Play = (&'static [Transport], Held, &'static [Calls]);

// A service, of those of its pages that are left which are taken, and whether its two passes are.
type Part = (Play, &'static [bool], bool);

const FIRST: bool = true;

const LAST: bool = false;

// Pages and passes of some services.
#[derive(Drop)]
struct Taken {
    pages: Vec<Page>,
    passes: Vec<Pass>,
}

fn plays<R: Wait + Abort>(scene: &Scene<R>, passes: &mut [Pass; 2], calls: &[(usize, Call)]) {
    for (caller, call) in calls {
        let pass = passes.get_mut(*caller).expect(scene.rt, "no caller");
        play(scene, pass, &[*call]);
    }
}

fn put(rt: &impl Abort, pages: &mut VecDeque<Page>, page: Page) {
    pages.push_back(page).expect(rt, "out of memory");
}

// Makes the calls, and turns each page but the last.
fn turn_pages<R: Wait + Abort>(
    scene: &Scene<R>,
    passes: &mut [Pass; 2],
    turned: &mut VecDeque<Page>,
    pages: &[Calls],
) {
    for (place, calls) in pages.iter().enumerate() {
        if place > 0 {
            put(scene.rt, turned, turn_page(scene.rt, scene.service));
        }
        plays(scene, passes, calls);
    }
}

// The pages of a service that is closed, in their order, and the passes of its callers.
fn ended<R: Wait + Abort>(rt: &R, alloc: Global, play: &Play) -> (VecDeque<Page>, [Pass; 2]) {
    let service = service_by(rt, alloc, play.0, 1, play.1);
    let mut passes = [service.pass(), service.pass()];
    let mut pages = VecDeque::new(alloc);
    turn_pages(
        &scene_of(rt, alloc, &service),
        &mut passes,
        &mut pages,
        play.2,
    );
    put(rt, &mut pages, close(rt, service));
    (pages, passes)
}

fn take_page(rt: &impl Abort, taken: &mut Taken, page: Option<Page>) {
    if let Some(page) = page {
        keep(rt, &mut taken.pages, page);
    }
}

fn take_pages(rt: &impl Abort, taken: &mut Taken, pages: &mut VecDeque<Page>, ends: &[bool]) {
    for end in ends {
        let page = if *end == FIRST {
            pages.pop_front()
        } else {
            pages.pop_back()
        };
        take_page(rt, taken, page);
    }
}

fn take_pass(rt: &impl Abort, taken: &mut Taken, pass: Pass) {
    taken.passes.push(pass).expect(rt, "out of memory");
}

fn take<R: Wait + Abort>(rt: &R, alloc: Global, taken: &mut Taken, part: &Part) {
    let (mut pages, [first, second]) = ended(rt, alloc, &part.0);
    take_pages(rt, taken, &mut pages, part.1);
    drop(pages);
    if part.2 {
        take_pass(rt, taken, first);
        take_pass(rt, taken, second);
    } else {
        drop(first);
        drop(second);
    }
}

fn take_all<R: Wait + Abort>(rt: &R, alloc: Global, taken: &mut Taken, parts: &[Part]) {
    for part in parts {
        take(rt, alloc, taken, part);
    }
}

fn nothing(alloc: Global) -> Taken {
    Taken {
        pages: Vec::new(alloc),
        passes: Vec::new(alloc),
    }
}

// ---- claims at once

// Services of which pages are claimed, how many events these have, and what the claim returns.
type Claiming = (&'static [Part], usize, Result<(), ClaimFault>);

const BOTH: &[Transport] = &[Tcp, Udp];

const TWO: &[Calls] = &[&[(0, Hold(1))], &[(0, Hold(5))]];

const PAIR: Play = (BOTH, Held::Out, TWO);

const FIRST_PAGE: Part = (PAIR, &[FIRST], false);

const OTHER_PAIR: Play = (BOTH, Held::Out, &[&[(0, Hold(2))], &[(0, Hold(5))]]);

const LAST_PAIR: Play = (BOTH, Held::Last, TWO);

const UDP_PAIR: Play = (&[Udp], Held::Out, TWO);

const HOLD: Play = (BOTH, Held::Out, &[&[(0, Hold(1))]]);

// By these random words server1 comes first, which is the server that is held.
const WORDS: &[u32] = &[1, 0];

const FREE: Call = Find(BOB, WORDS, Found::Targets(Tcp, &[SERVER_1, SERVER_2]));

const FREE_OUT: Play = (BOTH, Held::Out, &[&[(0, Load), (0, FREE)]]);

const FREE_LAST: Play = (BOTH, Held::Last, &[&[(0, Load), (0, FREE)]]);

const BOB_OUT: Call = Find(BOB, WORDS, Found::Targets(Tcp, &[SERVER_2]));

const NEW_OUT: Call = Find(OVER_TCP, WORDS, Found::Targets(Tcp, &[SERVER_2]));

const BOB_LAST: Call = Find(BOB, WORDS, Found::Targets(Tcp, &[SERVER_2, SERVER_1]));

const NEW_LAST: Call = Find(OVER_TCP, WORDS, Found::Targets(Tcp, &[SERVER_2, SERVER_1]));

const HOLD_1: (usize, Call) = (0, Hold(1));

// The targets of a current entry where server1 is held, and of a new one.
const OUT: Calls = &[(0, Load), (0, FREE), HOLD_1, (0, BOB_OUT), (0, NEW_OUT)];

const TRIED: Calls = &[(0, Load), (0, FREE), HOLD_1, (0, BOB_LAST), (0, NEW_LAST)];

const HELD_OUT: Play = (BOTH, Held::Out, &[OUT]);

const HELD_LAST: Play = (BOTH, Held::Last, &[TRIED]);

// The first answer that differs is not in the journal.
const DIFFERS: Result<(), ClaimFault> = Err(NotOurs(3));

const CLAIMINGS: &[Claiming] = &[
    // pages_in_the_wrong_order_are_no_claim
    (&[(PAIR, &[LAST, FIRST], false)], 2, Err(Gap(0))),
    // pages_in_their_order_are_gone_through
    (&[(PAIR, &[FIRST, LAST], false)], 2, Err(Unclaimed(0))),
    // a_page_twice_is_no_claim
    (&[FIRST_PAGE, FIRST_PAGE], 2, Err(Gap(1))),
    // a_page_of_a_service_with_the_same_calls_follows
    (&[FIRST_PAGE, (PAIR, &[LAST], false)], 2, Err(Unclaimed(0))),
    // a_page_of_another_service_is_no_claim
    (&[FIRST_PAGE, (OTHER_PAIR, &[LAST], false)], 2, Err(Gap(1))),
    // a_page_by_another_policy_is_no_claim
    (&[FIRST_PAGE, (LAST_PAIR, &[LAST], false)], 2, Err(Gap(1))),
    // a_page_for_another_client_is_no_claim
    (&[FIRST_PAGE, (UDP_PAIR, &[LAST], false)], 2, Err(Gap(1))),
    // two_receipts_of_one_event_are_no_claim
    (&[(HOLD, &[FIRST], true)], 1, Ok(())),
    (
        &[(HOLD, &[FIRST], true), (HOLD, &[], true)],
        1,
        Err(Doubled(0)),
    ),
    // receipts_by_another_policy_are_a_claim_where_nothing_is_held
    (
        &[(FREE_OUT, &[FIRST], false), (FREE_LAST, &[], true)],
        2,
        Ok(()),
    ),
    (
        &[(FREE_LAST, &[FIRST], false), (FREE_OUT, &[], true)],
        2,
        Ok(()),
    ),
    // receipts_by_another_policy_are_no_claim_where_an_answer_differs
    (&[(HELD_OUT, &[FIRST], true)], 5, Ok(())),
    (&[(HELD_LAST, &[FIRST], true)], 5, Ok(())),
    (
        &[(HELD_OUT, &[FIRST], false), (HELD_LAST, &[], true)],
        5,
        DIFFERS,
    ),
    (
        &[(HELD_LAST, &[FIRST], false), (HELD_OUT, &[], true)],
        5,
        DIFFERS,
    ),
];

fn is_claim<R: Wait + Abort>(rt: &R, alloc: Global, row: &Claiming) {
    let mut taken = nothing(alloc);
    take_all(rt, alloc, &mut taken, row.0);
    is_equal(rt, &events(&taken.pages), &row.1);
    claims(rt, alloc, &taken.pages, &taken.passes, row.2);
    drop(taken);
}

fn are_claims<R: Wait + Abort>(rt: &R, alloc: Global, rows: &[Claiming]) {
    for row in rows {
        is_claim(rt, alloc, row);
    }
}

#[test]
fn claims_are_of_the_receipts_of_pages_that_follow(rt: HostRuntime) {
    are_claims(&rt, rt.alloc(), CLAIMINGS);
}

// Loads a zone of seven records twice, and again after an edit.
const RELOADS: Play = (
    BOTH,
    Held::Out,
    &[&[(0, Load), (0, Load), (0, Remove(ADDRESS_2)), (0, Load)]],
);

fn is_load(receipt: &Receipt, records: usize) -> bool {
    match &receipt.event {
        Event::Change(Edit::Load(zone)) => zone.records().len() == records,
        _ => false,
    }
}

#[test]
fn receipts_of_a_zone_that_is_loaded_again_outlive_its_events(rt: HostRuntime) {
    let (pages, passes) = ended(&rt, rt.alloc(), &RELOADS);
    drop(pages);
    let receipts = passes[0].receipts();
    let loads = receipts.iter().filter(|it| is_load(it, 7)).count();
    drop(passes);
    is_equal(&rt, &loads, &3);
}

// ---- ledgers

// Passes whose receipts wait from now on, the page that is claimed then, what that returns, and whether no
// receipt waits.
type Round = (&'static [usize], usize, Result<(), ClaimFault>, bool);

// Pages of events 0 and 1, of events 2 and 3, and of none.
const THREE: &[Calls] = &[
    &[(0, Hold(10)), (1, Hold(20))],
    &[(1, Hold(30)), (0, Hold(40))],
    &[],
];

// The same, but for event 1.
const OTHER: &[Calls] = &[
    &[(0, Hold(10)), (1, Hold(21))],
    &[(1, Hold(30)), (0, Hold(40))],
    &[],
];

const ALL: &[bool] = &[FIRST, FIRST, FIRST];

const OWN: Part = ((BOTH, Held::Out, THREE), ALL, true);

const FORGED: Part = ((BOTH, Held::Out, OTHER), ALL, true);

const BY_LAST: Part = ((BOTH, Held::Last, THREE), ALL, true);

const LATE: Part = ((BOTH, Held::Out, &[&[(0, Hold(11))]]), &[], true);

const LOST: Part = (
    (BOTH, Held::Out, &[&[(0, Hold(10)), (1, Hold(20))]]),
    &[],
    true,
);

// Some services, the first of which has pages 0 to 2 and passes 0 and 1, the second pages 3 to 5 and passes 2
// and 3.
const LEDGERS: &[(&[Part], &[Round])] = &[
    // a_page_is_claimed_once_all_its_receipts_came
    (
        &[OWN],
        &[
            (&[1], 0, Err(Unclaimed(0)), false),
            (&[0], 0, Ok(()), false),
            (&[], 1, Ok(()), true),
            (&[], 2, Ok(()), true),
        ],
    ),
    // a_page_left_out_and_a_page_twice_are_refused
    (
        &[OWN],
        &[
            (&[0, 1], 1, Err(Gap(2)), false),
            (&[], 0, Ok(()), false),
            (&[], 0, Err(Gap(0)), false),
            (&[], 2, Err(Gap(4)), false),
        ],
    ),
    // a_page_of_another_service_is_refused
    (&[OWN, FORGED], &[OWN_FIRST, (&[], 4, Err(Gap(2)), false)]),
    // a_page_by_another_policy_is_refused
    (&[OWN, BY_LAST], &[OWN_FIRST, (&[], 4, Err(Gap(2)), false)]),
    // a_receipt_twice_is_refused
    (&[OWN, OWN], &[(&[0, 1, 3], 0, Err(Doubled(1)), false)]),
    // a_forged_receipt_is_refused
    (&[OWN, FORGED], &[(&[0, 1, 3], 0, Err(NotOurs(1)), false)]),
    // a_receipt_that_comes_too_late_is_refused_by_each_claim
    (
        &[OWN, LATE],
        &[
            OWN_FIRST,
            (&[2], 1, DOUBLED, false),
            (&[], 1, DOUBLED, false),
        ],
    ),
    // a_missing_receipt_is_refused
    (
        &[OWN, LOST],
        &[
            (&[0, 3], 0, Ok(()), false),
            (&[], 1, Err(Unclaimed(2)), false),
        ],
    ),
];

const OWN_FIRST: Round = (&[0, 1], 0, Ok(()), false);

const DOUBLED: Result<(), ClaimFault> = Err(Doubled(0));

fn is_added(rt: &impl Abort, added: Result<(), Receipts>) {
    let is_so = added.is_ok();
    drop(added);
    assert!(rt; is_so, "not added");
}

fn add(rt: &impl Abort, ledger: &mut Ledger, pass: &mut Pass) {
    is_added(rt, ledger.add(pass.hand_over()));
}

// A claim that is refused changes nothing.
fn claim(rt: &impl Abort, ledger: &mut Ledger, page: &Page, claimed: Result<(), ClaimFault>) {
    let before = (ledger.next(), ledger.waiting().len());
    is_equal(rt, &ledger.claim(page), &claimed);
    match claimed {
        Ok(()) => is_equal(rt, &ledger.next(), &page.next()),
        Err(_) => is_equal(rt, &(ledger.next(), ledger.waiting().len()), &before),
    }
}

fn claim_round(rt: &impl Abort, ledger: &mut Ledger, taken: &mut Taken, round: &Round) {
    for place in round.0 {
        add(
            rt,
            ledger,
            taken.passes.get_mut(*place).expect(rt, "no pass"),
        );
    }
    claim(
        rt,
        ledger,
        taken.pages.get(round.1).expect(rt, "no page"),
        round.2,
    );
    is_equal(rt, &ledger.is_settled(), &round.3);
}

fn claim_rounds(rt: &impl Abort, ledger: &mut Ledger, taken: &mut Taken, rounds: &[Round]) {
    for round in rounds {
        claim_round(rt, ledger, taken, round);
    }
}

fn claims_by_page<R: Wait + Abort>(rt: &R, alloc: Global, parts: &[Part], rounds: &[Round]) {
    let mut taken = nothing(alloc);
    take_all(rt, alloc, &mut taken, parts);
    let mut ledger = Ledger::new(alloc);
    claim_rounds(rt, &mut ledger, &mut taken, rounds);
    drop(ledger);
    drop(taken);
}

fn claim_by_page<R: Wait + Abort>(rt: &R, alloc: Global, rows: &[(&[Part], &[Round])]) {
    for (parts, rounds) in rows {
        claims_by_page(rt, alloc, parts, rounds);
    }
}

#[test]
fn a_ledger_claims_pages_that_follow_with_all_their_receipts(rt: HostRuntime) {
    claim_by_page(&rt, rt.alloc(), LEDGERS);
}

// ---- a pass that hands over

// The second pass meets the first, and each holds an endpoint once more.
fn meets<R: Wait + Abort>(scene: &Scene<R>, first: &mut Pass, second: &mut Pass) {
    second.meet(first);
    is_equal(scene.rt, &second.front(), &1);
    play(scene, second, &[Hold(20)]);
    play(scene, first, &[Hold(30)]);
    is_equal(scene.rt, &first.front(), &3);
}

// One receipt is handed over by a pass, which has none any more.
fn hands_over<R: Wait + Abort>(
    scene: &Scene<R>,
    ledger: &mut Ledger,
    first: &mut Pass,
    second: &mut Pass,
) {
    play(scene, first, &[Hold(10)]);
    let receipts = first.hand_over();
    let counts = (receipts.len(), first.receipts().len(), first.front());
    is_added(scene.rt, ledger.add(receipts));
    is_equal(scene.rt, &counts, &(1, 0, 1));
    meets(scene, first, second);
    add(scene.rt, ledger, first);
    add(scene.rt, ledger, second);
}

// Turns the page, which is claimed with all that waits.
fn claims_next<R: Wait + Abort>(scene: &Scene<R>, ledger: &mut Ledger) {
    let page = turn_page(scene.rt, scene.service);
    claim(scene.rt, ledger, &page, Ok(()));
    drop(page);
    is_equal(scene.rt, &ledger.is_settled(), &true);
}

#[test]
fn a_pass_goes_on_after_it_has_handed_over(rt: HostRuntime) {
    let service = new_service(&rt, rt.alloc(), 1);
    let scene = scene_of(&rt, rt.alloc(), &service);
    let mut ledger = Ledger::new(rt.alloc());
    let mut first = service.pass();
    let mut second = service.pass();
    hands_over(&scene, &mut ledger, &mut first, &mut second);
    claims_next(&scene, &mut ledger);
    drop(second);
    drop(first);
    drop(ledger);
    drop(service);
}
