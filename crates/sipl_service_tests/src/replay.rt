// Callers and repair workers in threads of their own, by a policy on held endpoints; one step
// of a caller in fifty turns the page, and in one play hands the receipts over, for a ledger that claims
// page by page. What each caller is told is drawn anew from its parts, and the events of all pages are
// replayed: each answer among them is that of the plain program on the records and the holds at its place.
use crate::calls::{Call, play};
use crate::told::are_drawn_anew;
use crate::values::{
    Scene, claims, close, endpoint, keep, question, record, scene_of, service_by, turn_page,
};
use rand_core::utils::NextWord;
use rand_pcg::Pcg32;
use sipl_book::{Edit, Event, Page};
use sipl_choice::{Abilities, Endpoint, Transport};
use sipl_outages::{Board, Held};
use sipl_plans::{Answer, plan_of};
use sipl_records::Address;
use sipl_service::{ClaimFault, Ledger, OpenGate, Pass, Service};
use sipl_srv::Draws;
use sipl_uri::Question;
use sipl_zonestore::{Changed, StoreFault, ZoneStore};
use std::alloc::Global;
use std::process::Abort;
use std::sync::{Mutex, Wait};
use std::test::*;
use std::thread;
use std::thread::Threads;

// The seed of a play, its policy, and whether its callers hand their receipts over as pages are turned.
type Play = (u64, Held, bool);

const PLAYS: &[Play] = &[(0, Held::Out, false), (1, Held::Last, true)];

const CALLERS: u64 = 6;

const CALLS: u64 = 2_000;

const URIS: [&[u8]; 11] = [
    b"sip:foo.example.com:5060",
    b"sip:y.foo.example.com:5060",
    b"sip:foo.example.com;transport=tcp",
    b"sip:example.com",
    b"sips:example.com",
    b"sip:example.com;transport=tcp",
    b"sip:example.com;transport=udp",
    b"sip:server1.example.com",
    b"sip:server2.example.com:5070",
    b"sip:alias.example.com:5060",
    b"sip:none.example.com",
];

const RECORDS: [&[u8]; 13] = [
    b"*.example.com. A 192.0.2.9",
    b"*.example.com. SRV 0 1 5070 server1.example.com.",
    b"x.foo.example.com. TXT y",
    b"foo.example.com. TXT y",
    b"*.foo.example.com. A 192.0.2.9",
    b"server1.example.com. A 192.0.2.1",
    b"server1.example.com. A 192.0.2.11",
    b"server2.example.com. A 192.0.2.2",
    b"server2.example.com. A 192.0.2.1",
    b"alias.example.com. CNAME server2.example.com.",
    b"_sip._udp.example.com. SRV 0 3 5060 server1.example.com.",
    b"_sip._tcp.example.com. SRV 0 5 5061 alias.example.com.",
    b"example.com. NAPTR 70 50 \"s\" \"SIP+D2U\" \"\" _sip._udp.example.com.",
];

// One of some texts.
fn choice(texts: &[&'static [u8]], word: u32) -> &'static [u8] {
    texts
        .get(word as usize % texts.len().max(1))
        .copied()
        .unwrap_or(b"")
}

// One of two endpoints.
fn one_of_two(word: u32) -> Endpoint {
    endpoint(Transport::Tcp, 0xC000_0201 + word % 2)
}

// ---- calls, which may be refused

fn edit<R: Wait + Abort>(scene: &Scene<R>, pass: &mut Pass, word: u32) {
    let record = record(scene.rt, scene.alloc, choice(&RECORDS, word / 2));
    let edit = if word % 2 == 0 {
        Edit::Add(record)
    } else {
        Edit::Remove(record)
    };
    let _ = scene.service.edit(scene.rt, pass, edit);
}

fn look_up<R: Wait + Abort>(scene: &Scene<R>, pass: &mut Pass, word: u32) {
    let question = question(scene.rt, scene.alloc, choice(&URIS, word));
    let draws = Draws::from_seed(u64::from(word));
    let told = scene
        .service
        .lookup(scene.rt, pass, &question, &draws, &OpenGate);
    drop(question);
    // One in four, for the sake of time.
    if word % 4 == 0 {
        are_drawn_anew(scene.rt, scene.alloc, &told);
    }
    drop(told);
}

fn call<R: Wait + Abort>(scene: &Scene<R>, pass: &mut Pass, kind: u32, word: u32, time: u64) {
    let Scene { rt, service, .. } = *scene;
    match kind % 16 {
        0..3 => edit(scene, pass, word),
        3 => {
            let _ = service.hold(rt, pass, &one_of_two(word), u64::from(word % 50));
        }
        4 => {
            let _ = service.release(rt, pass, &one_of_two(word));
        }
        5 => {
            let _ = service.advance(rt, pass, time);
        }
        _ => look_up(scene, pass, word),
    }
}

// The pages so far, and a ledger that claims them where all their receipts came.
#[derive(Drop)]
struct Claims {
    pages: Vec<Page>,
    ledger: Ledger,
    claimed: usize,
}

impl Claims {
    fn new(alloc: Global) -> Self {
        Claims {
            pages: Vec::new(alloc),
            ledger: Ledger::new(alloc),
            claimed: 0,
        }
    }

    // Takes the receipts of a pass.
    fn add(&mut self, rt: &impl Abort, pass: &mut Pass) {
        assert!(rt; self.ledger.add(pass.hand_over()).is_ok(), "out of memory");
    }

    // Claims pages up to the first that lacks a receipt.
    fn claim(&mut self, rt: &impl Abort) {
        for page in self.pages.get(self.claimed..).unwrap_or(&[]) {
            match self.ledger.claim(page) {
                Ok(()) => self.claimed = self.claimed.saturating_add(1),
                Err(ClaimFault::Unclaimed(_)) => return,
                Err(_) => panic!(rt; "a receipt is of no event, or too many"),
            }
        }
    }
}

// Turns the page, with the pages locked, so that they are in their order. Where it is a time to hand
// over, the ledger takes the receipts of the caller, and claims what it can.
fn turn_and_claim<R: Wait + Abort>(
    scene: &Scene<R>,
    claims: &Mutex<Claims>,
    pass: &mut Pass,
    hands_over: bool,
) {
    let mut claims = claims.lock(scene.rt);
    let page = turn_page(scene.rt, scene.service);
    keep(scene.rt, &mut claims.pages, page);
    if hands_over {
        claims.add(scene.rt, pass);
        claims.claim(scene.rt);
    }
}

// The calls of a caller, whose number is the stream of its words.
fn calls<R: Wait + Abort>(
    scene: &Scene<R>,
    claims: &Mutex<Claims>,
    pass: &mut Pass,
    caller: u64,
    play: &Play,
) {
    let mut chance = Pcg32::new(play.0, caller);
    for number in 0..CALLS {
        if chance.next_word() % 50 == 0 {
            turn_and_claim(scene, claims, pass, play.2);
        }
        let kind = chance.next_word();
        let word = chance.next_word();
        call(scene, pass, kind, word, number / 4);
    }
}

// The calls of all callers, and then the end of the repair workers.
fn all_calls<R: Threads + Wait + Abort + Sync>(
    it: &Scene<R>,
    claims: &Mutex<Claims>,
    passes: &mut [Pass],
    play: &Play,
) {
    thread::scope(thread::scope_env(), it.rt, |scope| {
        for (caller, pass) in passes.iter_mut().enumerate() {
            let _ = scope.spawn(move || calls(it, claims, pass, caller as u64, play));
        }
    });
    it.service.stop(it.rt);
}

fn passes<R: Wait + Abort>(scene: &Scene<R>) -> Vec<Pass> {
    let mut passes = Vec::new(scene.alloc);
    for _ in 0..CALLERS {
        passes
            .push(scene.service.pass())
            .expect(scene.rt, "out of memory");
    }
    passes
}

fn load<R: Wait + Abort>(scene: &Scene<R>, passes: &mut [Pass]) {
    if let Some(pass) = passes.first_mut() {
        play(scene, pass, &[Call::Load]);
    }
}

fn service_of(rt: &impl Abort, alloc: Global, held: Held) -> Service {
    service_by(rt, alloc, &[Transport::Tcp, Transport::Udp], 16, held)
}

// All is claimed: by the ledger, to which the last receipts are added, or at once.
fn all_is_claimed(
    rt: &impl Abort,
    alloc: Global,
    all: &mut Claims,
    passes: &mut [Pass],
    is_rolling: bool,
) {
    if !is_rolling {
        claims(rt, alloc, &all.pages, passes, Ok(()));
        return;
    }
    assert!(rt; all.claimed > 0, "no page was claimed before the end");
    for pass in passes {
        all.add(rt, pass);
    }
    all.claim(rt);
    assert_eq!(rt; all.claimed, all.pages.len());
    assert!(rt; all.ledger.is_settled(), "a receipt waits");
}

// Makes the calls, beside two repair workers.
fn plays<R: Threads + Wait + Abort + Sync>(
    scene: &Scene<R>,
    claims: &Mutex<Claims>,
    passes: &mut [Pass],
    play: &Play,
) {
    load(scene, passes);
    thread::join(
        scene.rt,
        || scene.service.run_workers(scene.rt, 2, &OpenGate),
        || all_calls(scene, claims, passes, play),
    );
}

// Makes the calls, and closes the service. Its pages are claimed with the receipts of the callers.
fn closed<R: Threads + Wait + Abort + Sync>(rt: &R, alloc: Global, play: &Play) -> Vec<Page> {
    let service = service_of(rt, alloc, play.1);
    let claims = Mutex::new(Claims::new(alloc));
    let scene = scene_of(rt, alloc, &service);
    let mut passes = passes(&scene);
    plays(&scene, &claims, &mut passes, play);
    let mut claims = claims.into_inner();
    keep(rt, &mut claims.pages, close(rt, service));
    all_is_claimed(rt, alloc, &mut claims, &mut passes, play.2);
    drop(passes);
    pages_of(claims)
}

fn pages_of(claims: Claims) -> Vec<Page> {
    let Claims { pages, ledger, .. } = claims;
    drop(ledger);
    pages
}

// ---- the replay

fn plain_answer(
    rt: &impl Abort,
    alloc: Global,
    store: &mut ZoneStore,
    board: &Board,
    client: (&Abilities, Held),
    question: &Question,
    draws: &Draws,
) -> Answer {
    let (abilities, held) = client;
    plan_of(
        alloc,
        store.records(),
        board,
        question,
        abilities,
        draws,
        held,
    )
    .expect(rt, "out of memory")
}

// The plain program of a service's client and policy, at a place of the journal.
#[derive(Drop)]
struct Plain<'a> {
    alloc: Global,
    abilities: &'a Abilities,
    held: Held,
    store: ZoneStore,
    board: Board,
    seen: Seen,
}

impl Plain<'_> {
    // Whether this is the plain program's answer by a policy.
    fn gives(
        &mut self,
        rt: &impl Abort,
        held: Held,
        question: &Question,
        draws: &Draws,
        answer: &Answer,
    ) -> bool {
        let (board, client) = (&self.board, (self.abilities, held));
        let store = &mut self.store;
        let plain = plain_answer(rt, self.alloc, store, board, client, question, draws);
        let is_so = plain == *answer;
        drop(plain);
        is_so
    }

    // Whether an event is legal, which is made.
    fn makes(&mut self, rt: &impl Abort, event: &Event) -> bool {
        match event {
            Event::Change(edit) => self.edits(edit),
            Event::Hold(endpoint, ms) => self.board.hold(endpoint, *ms).is_ok(),
            Event::Release(endpoint) => self.board.release(endpoint).is_ok(),
            Event::Advance(to) => self.board.advance(*to).is_ok(),
            Event::Answer(question, draws, answer) => {
                let draws = &draws.draws();
                let is_by_other = self.gives(rt, other(self.held), question, draws, answer);
                self.seen.count_answer(self.held, answer, is_by_other);
                self.gives(rt, self.held, question, draws, answer)
            }
        }
    }

    // Whether an edit is accepted. Those that change existence alone are counted.
    fn edits(&mut self, edit: &Edit) -> bool {
        match changed(&mut self.store, edit) {
            Ok(changed) => {
                let is_of_existence = changed.sets == 0 && changed.keys.len() > 0;
                count(is_of_existence, &mut self.seen.existence);
                true
            }
            Err(_) => false,
        }
    }

    // How many events of a page are legal, up to the first that is not.
    fn legal(&mut self, rt: &impl Abort, events: &[Event]) -> usize {
        for (place, event) in events.iter().enumerate() {
            if !self.makes(rt, event) {
                return place;
            }
        }
        events.len()
    }
}

fn other(held: Held) -> Held {
    match held {
        Held::Out => Held::Last,
        Held::Last => Held::Out,
    }
}

fn changed(store: &mut ZoneStore, edit: &Edit) -> Result<Changed, StoreFault> {
    match edit {
        Edit::Load(zone) => store.load(zone),
        Edit::Unload(apex) => store.unload(apex),
        Edit::Add(record) => store.add(record),
        Edit::Remove(record) => store.remove(record),
    }
}

// How many edits changed existence alone, how many answers have the address of a wildcard, and how many by
// each policy are not those of the other.
#[derive(Clone, Copy, Default)]
struct Seen {
    existence: u64,
    by_wildcard: u64,
    by_out: u64,
    by_last: u64,
}

impl Seen {
    fn count_answer(&mut self, held: Held, answer: &Answer, is_by_other: bool) {
        count(is_by_wildcard(answer), &mut self.by_wildcard);
        match held {
            Held::Out => count(!is_by_other, &mut self.by_out),
            Held::Last => count(!is_by_other, &mut self.by_last),
        }
    }
}

// Whether the answer has an address that wildcards alone have.
fn is_by_wildcard(answer: &Answer) -> bool {
    match answer {
        Answer::Targets(targets) => {
            targets
                .iter()
                .any(|target| target.address == Address::V4(0xC000_0209))
        }
        Answer::None(_) => false,
    }
}

fn count(is_seen: bool, counter: &mut u64) {
    *counter = counter.saturating_add(u64::from(is_seen));
}

// All events of some hundred pages are legal.
fn are_legal(rt: &impl Abort, plain: &mut Plain, pages: &[Page]) {
    assert!(rt; pages.len() > 100, "few pages were turned");
    let (mut legal, mut all) = (0_usize, 0_usize);
    for page in pages {
        legal = legal.saturating_add(plain.legal(rt, page.events()));
        all = all.saturating_add(page.events().len());
    }
    assert!(rt; all > 8_000, "few calls were accepted");
    assert_eq!(rt; legal, all);
}

// Makes the calls of a play, and replays their events.
fn replay<R: Threads + Wait + Abort + Sync>(
    rt: &R,
    alloc: Global,
    play: &Play,
    seen: Seen,
) -> Seen {
    let pages = closed(rt, alloc, play);
    let service = service_of(rt, alloc, play.1);
    let mut plain = Plain {
        alloc,
        abilities: service.abilities(),
        held: service.held(),
        store: ZoneStore::with(alloc, 1, 1_048_576),
        board: Board::with(alloc, 4_096),
        seen,
    };
    are_legal(rt, &mut plain, pages.as_slice());
    let seen = plain.seen;
    drop(plain);
    drop(service);
    drop(pages);
    seen
}

fn are_seen(rt: &impl Abort, seen: Seen) {
    assert!(rt; seen.existence > 100, "edits of existence alone");
    assert!(rt; seen.by_wildcard > 200, "answers by wildcards");
    assert!(rt; seen.by_out > 200, "answers without held endpoints");
    assert!(rt; seen.by_last > 200, "answers with held endpoints last");
}

fn replay_all<R: Threads + Wait + Abort + Sync>(rt: &R, alloc: Global, plays: &[Play]) {
    let mut seen = Seen::default();
    for play in plays {
        seen = replay(rt, alloc, play, seen);
    }
    are_seen(rt, seen);
}

#[test]
fn answers_of_threads_are_those_of_the_plain_program_at_their_places(rt: HostRuntime) {
    replay_all(&rt, rt.alloc(), PLAYS);
}
