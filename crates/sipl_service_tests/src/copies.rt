// Names of which two threads have copies.
use crate::values::name;
use sipl_names::Name;
use std::alloc::Global;
use std::process::Abort;
use std::sync::Wait;
use std::test::*;
use std::thread;
use std::thread::Threads;

const TEXTS: [&str; 2] = [
    "www.example.com.",
    "a-name-of-many-octets.in.several.labels.below.example.com.",
];

// Copies a name a thousand times, and drops the copies.
fn drop_copies(rt: &impl Abort, alloc: Global, name: &Name) {
    for _ in 0..1000 {
        drop(name.dup(alloc).expect(rt, "memory"));
    }
}

// Copies a name and drops the copies, and then the name.
fn drop_all(rt: &impl Abort, alloc: Global, name: Name) {
    drop_copies(rt, alloc, &name);
    drop(name);
}

fn is_text(alloc: Global, name: &Name, text: &str) -> bool {
    let mut out = Vec::new(alloc);
    let is_so = name.write(&mut out).is_ok() && out.as_slice() == text.as_bytes();
    drop(out);
    is_so
}

// Whether the name is the one of the text after a thousand copies.
fn is_kept(rt: &impl Abort, alloc: Global, name: &Name, text: &str) -> bool {
    drop_copies(rt, alloc, name);
    is_text(alloc, name, text)
}

// Whether a name is kept while a thread drops copies that another has made.
fn outlives_another_thread<R: Threads + Wait + Abort + Sync>(
    rt: &R,
    alloc: Global,
    text: &str,
) -> bool {
    let name = name(rt, alloc, text.as_bytes());
    let copy = name.dup(alloc).expect(rt, "memory");
    let (is_kept, ()) = thread::join(
        rt,
        || is_kept(rt, alloc, &name, text),
        || drop_all(rt, alloc, copy),
    );
    is_kept
}

#[test]
fn another_thread_drops_copies_of_a_name(rt: HostRuntime) {
    for text in TEXTS {
        assert!(rt; outlives_another_thread(&rt, rt.alloc(), text), "{text}");
    }
}
