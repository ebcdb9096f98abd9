// The README's examples of threads: a zone is loaded by one caller, and asked for by another; pages are
// claimed one by one.
use sipl_book::{Edit, Limits, Page};
use sipl_choice::{Abilities, Families, Transport};
use sipl_masterfile::read_zone;
use sipl_names::Name;
use sipl_outages::Held;
use sipl_plans::Answer;
use sipl_service::{Ledger, OpenGate, Pass, Service, Told, claim};
use sipl_srv::Draws;
use sipl_uri::Uri;
use std::alloc::Global;
use std::sync::Wait;

fn loads<R: Wait>(rt: &R, alloc: Global, service: &Service, pass: &mut Pass) -> anyhow::Result<()> {
    let apex = Name::from_text(alloc, b"example.com.", &Name::root(alloc))?;
    let zone = read_zone(alloc, b"server1 A 192.0.2.1\nserver1 A 192.0.2.2", &apex)?;
    service.edit(rt, pass, Edit::Load(zone))?;
    Ok(())
}

fn asks<R: Wait>(
    rt: &R,
    alloc: Global,
    service: &Service,
    pass: &mut Pass,
) -> anyhow::Result<Told> {
    let question = Uri::parse(alloc, b"sip:server1.example.com:5070")?;
    Ok(service.lookup(rt, pass, &question, &Draws::from_seed(42), &OpenGate)?)
}

fn answered<R: Wait>(rt: &R, alloc: Global) -> anyhow::Result<Answer> {
    let abilities = Abilities::new(vec![in alloc; Transport::Udp]?, Families::V4)?;
    let service = Service::new(alloc, abilities, &Limits::greatest(), 4, Held::Out)?;
    let (mut editor, mut caller) = (service.pass(), service.pass());
    let answer = loads_and_asks(rt, alloc, &service, &mut editor, &mut caller);
    closes(alloc, service, [editor, caller])?;
    answer
}

fn loads_and_asks<R: Wait>(
    rt: &R,
    alloc: Global,
    service: &Service,
    editor: &mut Pass,
    caller: &mut Pass,
) -> anyhow::Result<Answer> {
    loads(rt, alloc, service, editor)?;
    caller.meet(editor);
    let told = asks(rt, alloc, service, caller)?;
    Ok(told.into_answer())
}

fn closes(alloc: Global, service: Service, passes: [Pass; 2]) -> anyhow::Result<()> {
    if let Ok(page) = service.close() {
        claim(alloc, &[page], &passes)?;
    }
    Ok(())
}

fn claims_a_page(ledger: &mut Ledger, page: &Page, passes: &mut [Pass]) -> anyhow::Result<()> {
    for pass in passes {
        if ledger.add(pass.hand_over()).is_err() {
            anyhow::bail!("out of memory");
        }
    }
    Ok(ledger.claim(page)?)
}

fn turns_a_page<R: Wait>(
    rt: &R,
    service: &Service,
    ledger: &mut Ledger,
    passes: &mut [Pass],
) -> anyhow::Result<()> {
    let page = service.turn_page(rt)?;
    let claimed = claims_a_page(ledger, &page, passes);
    drop(page);
    claimed
}

// How many events are claimed of a service whose pages are turned twice.
fn claimed<R: Wait>(rt: &R, alloc: Global) -> anyhow::Result<u64> {
    let abilities = Abilities::new(vec![in alloc; Transport::Udp]?, Families::V4)?;
    let service = Service::new(alloc, abilities, &Limits::greatest(), 4, Held::Out)?;
    let mut ledger = Ledger::new(alloc);
    let mut passes = [service.pass()];
    let next = claims_two_pages(rt, alloc, &service, &mut ledger, &mut passes);
    drop(passes);
    drop(ledger);
    drop(service);
    next
}

fn claims_two_pages<R: Wait>(
    rt: &R,
    alloc: Global,
    service: &Service,
    ledger: &mut Ledger,
    passes: &mut [Pass; 1],
) -> anyhow::Result<u64> {
    loads(rt, alloc, service, &mut passes[0])?;
    turns_a_page(rt, service, ledger, passes)?;
    asks(rt, alloc, service, &mut passes[0])?;
    turns_a_page(rt, service, ledger, passes)?;
    Ok(ledger.next())
}

#[test]
fn readme_example_of_a_long_service_claims_two_events(rt: HostRuntime) {
    assert!(rt; matches!(claimed(&rt, rt.alloc()), Ok(2)));
}

#[test]
fn readme_example_of_threads_finds_two_targets(rt: HostRuntime) {
    let answer = answered(&rt, rt.alloc());
    assert!(rt; matches!(&answer, Ok(Answer::Targets(targets)) if targets.len() == 2));
}
