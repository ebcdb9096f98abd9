// What was told, drawn anew from its parts: the route of its question over its record sets, for its client,
// and the targets of that by its words, its holds and its policy.
ghost use Rattle.std.specs.Prelude.{IsTrue};
ghost use Rattle.sipl_plans.specs.Runs.{wanted, IsSet, IsWanted};

use sipl_evidence::Item;
use sipl_plans::{Answer, Finding, Run, draw};
use sipl_service::{ServiceFault, Told};
use std::alloc::Global;
use std::process::Abort;

// Whether a run wants the set of the item's key.
fn wants(run: &Run, item: &Item) -> bool
    requires { IsSet item.now.key item.now.number item.now.content }
    ensures { IsTrue result → IsWanted (wanted run.now) item.now.number item.now.content }
{
    run.wants() == Some(item.key())
}

fn give_copy(rt: &impl Abort, alloc: Global, run: &mut Run, item: &Item)
    requires { IsWanted (wanted run.old) item.now.number item.now.content }
{
    let copy = item.dup(alloc).expect(rt, "out of memory");
    run.give(alloc, copy.number(), copy.into_content())
        .expect(rt, "out of memory");
}

// Gives a run the set that it wants. Whether the item is of the key that it wants.
fn give(rt: &impl Abort, alloc: Global, run: &mut Run, item: &Item) -> bool
    requires { IsSet item.now.key item.now.number item.now.content }
{
    if !wants(run, item) {
        return false;
    }
    give_copy(rt, alloc, run, item);
    true
}

// Gives a run all record sets of what was told, in their order.
fn give_all(rt: &impl Abort, alloc: Global, run: &mut Run, told: &Told) -> bool {
    for item in told.evidence().items() {
        if !give(rt, alloc, run, item) {
            return false;
        }
    }
    true
}

// The route of the question over the record sets; `None` where they are not those that it reads.
fn finding(rt: &impl Abort, alloc: Global, told: &Told) -> Option<Finding> {
    let question = told.question().dup(alloc).expect(rt, "out of memory");
    let mut run = Run::start(alloc, question, told.abilities()).expect(rt, "out of memory");
    if give_all(rt, alloc, &mut run, told) {
        run.finish().ok()
    } else {
        drop(run);
        None
    }
}

fn drawn(rt: &impl Abort, alloc: Global, finding: &Finding, told: &Told) -> Answer {
    let layout = finding.layout();
    draw(alloc, layout, told.draws(), told.holds(), told.held()).expect(rt, "out of memory")
}

fn answer(rt: &impl Abort, alloc: Global, told: &Told) -> Option<Answer> {
    match finding(rt, alloc, told) {
        Some(finding) => {
            let answer = drawn(rt, alloc, &finding, told);
            drop(finding);
            Some(answer)
        }
        None => None,
    }
}

fn is_answer(answer: &Option<Answer>, expected: &Answer) -> bool {
    answer.as_ref() == Some(expected)
}

// What was told, if anything, is what its parts give.
pub(crate) fn are_drawn_anew(rt: &impl Abort, alloc: Global, told: &Result<Told, ServiceFault>) {
    if let Ok(told) = told {
        is_drawn_anew(rt, alloc, told);
    }
}

// The answer is what its parts give.
pub(crate) fn is_drawn_anew(rt: &impl Abort, alloc: Global, told: &Told) {
    let answer = answer(rt, alloc, told);
    let is_so = is_answer(&answer, told.answer());
    drop(answer);
    assert!(rt; is_so, "another answer");
}
