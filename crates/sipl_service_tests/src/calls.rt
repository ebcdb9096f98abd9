// Calls of a service as rows: what is called, and what it returns.
use crate::told::is_drawn_anew;
use crate::values::{
    BOB, SERVER_1, SERVER_2, Scene, draws, endpoint, is_equal, question, record, zone,
};
use sipl_book::Edit;
use sipl_choice::Transport;
use sipl_plans::{Answer, Reason};
use sipl_records::Key;
use sipl_service::{Gate, OpenGate, Pass, ServiceFault, Told};
use std::alloc::Global;
use std::process::Abort;
use std::sync::Wait;

/// A call with a pass.
#[derive(Clone, Copy)]
pub(crate) enum Call {
    Load,
    /// Adds a record, which changes so many sets.
    Add(&'static [u8], u64),
    Remove(&'static [u8]),
    /// Holds server1's endpoint over TCP for so many milliseconds.
    Hold(u64),
    /// A URI, its random words, and what is found.
    Find(&'static [u8], &'static [u32], Found),
    /// There are so many versions of record sets.
    Versions(usize),
}

/// What a lookup returns.
#[derive(Clone, Copy)]
pub(crate) enum Found {
    /// Endpoints at port 5060.
    Targets(Transport, &'static [u32]),
    NoAddress,
    /// The fault of this code.
    Fault(&'static str),
    /// An L1 with this key.
    Contended(&'static [u8]),
    /// An L2 with the service's next number, and the pass's front.
    Ahead(u64, u64),
}

pub(crate) const BOTH: Found = Found::Targets(Transport::Tcp, &[SERVER_2, SERVER_1]);

pub(crate) const FIND: Call = Call::Find(BOB, &[2, 0], BOTH);

/// Makes some calls with a pass.
pub(crate) fn play<R: Wait + Abort>(scene: &Scene<R>, pass: &mut Pass, calls: &[Call]) {
    for call in calls {
        make(scene, pass, *call);
    }
}

/// Makes some calls with a pass of their own.
pub(crate) fn play_alone<R: Wait + Abort>(scene: &Scene<R>, calls: &[Call]) {
    let mut pass = scene.service.pass();
    play(scene, &mut pass, calls);
    drop(pass);
}

fn make<R: Wait + Abort>(scene: &Scene<R>, pass: &mut Pass, call: Call) {
    match call {
        Call::Load => {
            edit(scene, pass, Edit::Load(zone(scene.rt, scene.alloc)));
        }
        Call::Add(text, sets) => add(scene, pass, text, sets),
        Call::Remove(text) => {
            edit(
                scene,
                pass,
                Edit::Remove(record(scene.rt, scene.alloc, text)),
            );
        }
        Call::Hold(ms) => hold(scene, pass, ms),
        Call::Find(uri, words, found) => find(scene, pass, uri, words, found, &OpenGate),
        Call::Versions(count) => is_equal(scene.rt, &scene.service.version_count(scene.rt), &count),
    }
}

// Makes an edit, and returns how many sets it changed.
fn edit<R: Wait + Abort>(scene: &Scene<R>, pass: &mut Pass, edit: Edit) -> u64 {
    let done = scene.service.edit(scene.rt, pass, edit);
    done.expect(scene.rt, "the edit is refused").changed
}

fn add<R: Wait + Abort>(scene: &Scene<R>, pass: &mut Pass, text: &[u8], sets: u64) {
    let changed = edit(scene, pass, Edit::Add(record(scene.rt, scene.alloc, text)));
    is_equal(scene.rt, &changed, &sets);
}

fn hold<R: Wait + Abort>(scene: &Scene<R>, pass: &mut Pass, ms: u64) {
    let held = endpoint(Transport::Tcp, SERVER_1);
    let number = scene.service.hold(scene.rt, pass, &held, ms);
    number.expect(scene.rt, "the hold is refused");
}

pub(crate) fn look_up<R: Wait + Abort, G: Gate>(
    scene: &Scene<R>,
    pass: &mut Pass,
    uri: &[u8],
    words: &[u32],
    gate: &G,
) -> Result<Told, ServiceFault> {
    let draws = draws(scene.rt, words);
    let question = question(scene.rt, scene.alloc, uri);
    let told = scene
        .service
        .lookup(scene.rt, pass, &question, &draws, gate);
    drop(question);
    told
}

/// Looks up by this gate, and finds what is expected.
pub(crate) fn find<R: Wait + Abort, G: Gate>(
    scene: &Scene<R>,
    pass: &mut Pass,
    uri: &[u8],
    words: &[u32],
    found: Found,
    gate: &G,
) {
    let told = look_up(scene, pass, uri, words, gate);
    let is_so = is_found(scene, &told, found);
    drop(told);
    assert!(scene.rt; is_so, "another answer, or another fault");
}

/// Whether a lookup returned this; an answer is by the service's policy, and is what its parts give.
pub(crate) fn is_found<R: Abort>(
    scene: &Scene<R>,
    told: &Result<Told, ServiceFault>,
    found: Found,
) -> bool {
    match told {
        Ok(told) => {
            is_drawn_anew(scene.rt, scene.alloc, told);
            told.held() == scene.service.held() && is_answer(told.answer(), found)
        }
        Err(fault) => is_fault(scene.alloc, fault, found),
    }
}

fn is_answer(answer: &Answer, found: Found) -> bool {
    match found {
        Found::Targets(transport, numbers) => are_targets(answer, transport, numbers),
        Found::NoAddress => *answer == Answer::None(Reason::NoAddress),
        _ => false,
    }
}

fn are_targets(answer: &Answer, transport: Transport, numbers: &[u32]) -> bool {
    match answer {
        Answer::Targets(targets) => {
            let mut pairs = targets.iter().zip(numbers);
            targets.len() == numbers.len()
                && pairs.all(|(target, number)| *target == endpoint(transport, *number))
        }
        Answer::None(_) => false,
    }
}

fn is_fault(alloc: Global, fault: &ServiceFault, found: Found) -> bool {
    match fault {
        ServiceFault::Contended(key) => match found {
            Found::Contended(text) => is_text(alloc, key, text),
            _ => false,
        },
        ServiceFault::PassAhead { next, front } => match found {
            Found::Ahead(its_next, its_front) => *next == its_next && *front == its_front,
            _ => false,
        },
        fault => is_code(fault.code(), found),
    }
}

fn is_code(code: &str, found: Found) -> bool {
    match found {
        Found::Fault(expected) => code == expected,
        _ => false,
    }
}

// Whether this is the text of a key.
fn is_text(alloc: Global, key: &Key, text: &[u8]) -> bool {
    let mut out = Vec::new(alloc);
    let is_so = is_written(key, &mut out) && out.as_slice() == text;
    drop(out);
    is_so
}

fn is_written(key: &Key, out: &mut Vec<u8>) -> bool {
    key.name.write(out).is_ok()
        && out.extend_from_slice(b" ").is_ok()
        && out.extend_from_slice(key.kind.name().as_bytes()).is_ok()
}
