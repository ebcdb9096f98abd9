// The README's example: a zone is loaded and edited, and a URI's targets are asked for.
use sipl_book::{Book, Edit, Limits};
use sipl_choice::{Abilities, Families, Transport};
use sipl_masterfile::{read_record, read_zone};
use sipl_names::Name;
use sipl_outages::Held;
use sipl_plans::Answer;
use sipl_srv::Draws;
use sipl_uri::Uri;
use std::alloc::Global;

// Loads a zone, adds a record to it, and finds the targets of a URI.
fn find(alloc: Global, book: &mut Book, uri: &[u8]) -> anyhow::Result<Answer> {
    let apex = Name::from_text(alloc, b"example.com.", &Name::root(alloc))?;
    let zone = read_zone(alloc, b"$TTL 1h\nserver1 A 192.0.2.1", &apex)?;
    book.change(Edit::Load(zone))?;
    book.change(Edit::Add(read_record(alloc, b"server1 A 192.0.2.2", &apex)?))?;
    let handed = book.find(Uri::parse(alloc, uri)?, &Draws::from_seed(42))?;
    Ok(handed.answer)
}

fn targets(alloc: Global, uri: &[u8]) -> anyhow::Result<Answer> {
    let abilities = Abilities::new(vec![in alloc; Transport::Udp]?, Families::V4)?;
    let mut book = Book::new(alloc, abilities, &Limits::greatest(), Held::Out);
    let answer = find(alloc, &mut book, uri);
    drop(book);
    answer
}

#[test]
fn readme_example_finds_two_targets(rt: HostRuntime) {
    let answer = targets(rt.alloc(), b"sip:server1.example.com:5070");
    assert!(rt; matches!(&answer, Ok(Answer::Targets(targets)) if targets.len() == 2));
}
