// A run: the same answer, from record sets that are read one at a time.
ghost use Rattle.std.specs.Prelude.{◌≡◌, ◌↔◌, true, All, IsTrue};
ghost use Rattle.sipl_records.specs.Sets.{has_kind};

use super::{
    Target, abilities_of, has_targets, is_len, name, no_draws, planned, question_of, records_of,
};
use crate::assertions::{expects, expects_equal};
use sipl_choice::Families::V4ThenV6;
use sipl_choice::Transport::{self, Udp};
use sipl_outages::{Board, Held};
use sipl_plans::{Answer, Finding, Run, Unfinished, draw};
use sipl_records::Kind::{Address4, Address6, Alias, Exists};
use sipl_records::{Data, Key, Kind, MAX_SET_LEN, Record, Sequence};
use std::alloc::Global;
use std::process::Abort;

// Both families, one of them over an alias, which no zone has beside data: the records, and the
// sets that are read, in this order and no others, with their numbers, which are the counts of
// their records.
const ZONE: &[&str] = &["a. A 192.0.2.1", "a. CNAME b.", "b. AAAA 2001:db8::2"];

const URI: &str = "sip:a.:5070";

const TRANSPORTS: &[Transport] = &[Udp];

const WANTED: &[(&str, Kind)] = &[
    ("a.", Address4),
    ("a.", Address6),
    ("a.", Alias),
    ("b.", Address6),
];

const NUMBERS: &[u64] = &[1, 0, 1, 1];

const TARGETS: &[Target] = &[(Udp, "192.0.2.1", 5070), (Udp, "2001:db8::2", 5070)];

// A run that has read nothing.
fn start(rt: &impl Abort, alloc: Global) -> Run {
    let abilities = abilities_of(rt, alloc, (V4ThenV6, TRANSPORTS));
    let question = question_of(rt, alloc, URI);
    Run::start(alloc, question, &abilities).expect(rt, "out of memory")
}

// Gives the run each set that it is to want, and finishes it.
fn complete(rt: &impl Abort, alloc: Global, run: Run) -> Finding {
    let mut run = run;
    let records = records_of(rt, alloc, ZONE);
    give_each(rt, alloc, &mut run, &records, WANTED);
    run.finish().expect(rt, "a finding")
}

fn give_each(
    rt: &impl Abort,
    alloc: Global,
    run: &mut Run,
    records: &[Record],
    wanted: &[(&str, Kind)],
) {
    for (owner, kind) in wanted {
        wants(rt, alloc, run, owner, *kind);
        give_next(rt, alloc, run, records);
    }
    expects(rt, run.wants().is_none(), "the run wants another set");
}

// The run wants this set.
fn wants(rt: &impl Abort, alloc: Global, run: &Run, owner: &str, kind: Kind) {
    let is_wanted = {
        let key = Key {
            name: name(rt, alloc, owner),
            kind,
        };
        run.wants() == Some(&key)
    };
    expects(rt, is_wanted, owner);
}

// Gives the run the set that it wants.
fn give_next(rt: &impl Abort, alloc: Global, run: &mut Run, records: &[Record]) {
    let mut content = Vec::new(alloc);
    for record in records {
        push_if_wanted(rt, alloc, &mut content, record, run);
    }
    give(rt, alloc, run, Sequence::from_vec(content));
}

// Appends the record's data where they are of the set that the run wants.
fn push_if_wanted(
    rt: &impl Abort,
    alloc: Global,
    content: &mut Vec<Data>,
    record: &Record,
    run: &Run,
) {
    let Some(key) = run.wants() else {
        return;
    };
    if record.has_key(key) {
        push(rt, content, dup_value(rt, alloc, record));
    } else if content.is_empty() && makes_exist(record, key) {
        push(rt, content, Data::Bare);
    }
}

fn push(rt: &impl Abort, content: &mut Vec<Data>, datum: Data) {
    content.push(datum).expect(rt, "out of memory");
}

// Whether the key is that of the existence of a name that the record makes exist.
fn makes_exist(record: &Record, key: &Key) -> bool {
    key.kind == Exists && record.owner.is_within(&key.name)
}

fn dup_value(rt: &impl Abort, alloc: Global, record: &Record) -> Data {
    record.value.dup(alloc).expect(rt, "out of memory")
}

// Whether all data are of this kind.
fn are_of_kind(kind: Kind, content: &[Data]) -> bool
    ensures { IsTrue result ↔ (All (λ datum. has_kind kind datum ≡ true) content.now) }
{
    content.iter().all(|datum| datum.has_kind(kind))
}

// Gives the run these data as the set that it wants, with their count as its number.
fn give(rt: &impl Abort, alloc: Global, run: &mut Run, content: Sequence<Data>) {
    let kind = run.wants().expect(rt, "a key").kind;
    if !are_of_kind(kind, content.as_slice()) || content.len() > MAX_SET_LEN {
        panic!(rt; "data of another kind, or too many");
    }
    run.give(alloc, content.len() as u64, content)
        .expect(rt, "out of memory");
}

// The targets drawn from the finding, while nothing is held.
fn drawn(rt: &impl Abort, alloc: Global, finding: &Finding) -> Answer {
    let board = Board::new(alloc);
    let draws = no_draws(rt);
    draw(alloc, finding.layout(), &draws, &board, Held::Out).expect(rt, "out of memory")
}

// The answer from all records to the question of the finding, for its client.
fn planned_for(rt: &impl Abort, alloc: Global, finding: &Finding) -> Answer {
    let records = records_of(rt, alloc, ZONE);
    planned(rt, alloc, &records, finding.question(), finding.abilities())
}

// The evidence has each set, and its number.
fn has_numbers(rt: &impl Abort, finding: &Finding, numbers: &[u64]) {
    let items = finding.evidence().items();
    is_len(rt, items.len(), numbers.len(), "sets");
    for (item, number) in items.iter().zip(numbers.iter()) {
        expects_equal(rt, &item.number(), number, "the number");
    }
}

// The finding keeps the question and the abilities of the client.
fn has_parts(rt: &impl Abort, finding: &Finding) {
    expects_equal(rt, &finding.question().port, &Some(5070), "the port");
    let families = finding.abilities().families();
    expects_equal(rt, &families, &V4ThenV6, "the families");
}

fn is_finding(rt: &impl Abort, alloc: Global, finding: &Finding) {
    has_numbers(rt, finding, NUMBERS);
    has_parts(rt, finding);
    has_targets(rt, &drawn(rt, alloc, finding), TARGETS);
    has_targets(rt, &planned_for(rt, alloc, finding), TARGETS);
}

// The run, which still wants a set, as an early finish returns it.
fn finish_early(rt: &impl Abort, run: Run) -> Run {
    run_of(rt, run.finish().err().expect(rt, "a finding"))
}

fn run_of(rt: &impl Abort, unfinished: Unfinished) -> Run {
    is_code(rt, unfinished.code());
    unfinished.run
}

fn is_code(rt: &impl Abort, code: &str) {
    expects_equal(rt, &code, &"P1", "the code");
}

// The finding of a run that was to finish before it had read anything.
fn found_after_all(rt: &impl Abort, alloc: Global) -> Finding {
    let run = finish_early(rt, start(rt, alloc));
    complete(rt, alloc, run)
}

fn goes_on_after_an_early_finish(rt: &impl Abort, alloc: Global) {
    let finding = found_after_all(rt, alloc);
    is_finding(rt, alloc, &finding);
    drop(finding);
}

#[test]
fn a_run_goes_on_after_an_early_finish_and_finds_the_plan(rt: HostRuntime) {
    goes_on_after_an_early_finish(&rt, rt.alloc());
}
