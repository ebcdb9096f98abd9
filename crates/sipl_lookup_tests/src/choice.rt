//! What no line shows of a client's choice: the place of the NAPTR record that decides among data of several
//! kinds. The rest is in `tests/sessions/choice/` and in `tests/sessions/settings`.
use crate::assertions::expects_equal;
use sipl_choice::{Abilities, Families, Transport, choose_pointer};
use sipl_masterfile::read_record;
use sipl_names::Name;
use sipl_records::Data;
use std::alloc::Global;
use std::process::Abort;

fn data_of(rt: &impl Abort, alloc: Global, lines: &[&str]) -> Vec<Data> {
    let mut data = Vec::new(alloc);
    for line in lines {
        push(rt, &mut data, datum_of(rt, alloc, line));
    }
    data
}

fn datum_of(rt: &impl Abort, alloc: Global, line: &str) -> Data {
    let record = read_record(alloc, line.as_bytes(), &Name::root(alloc)).expect(rt, line);
    record.value
}

fn push(rt: &impl Abort, data: &mut Vec<Data>, datum: Data) {
    data.push(datum).expect(rt, "out of memory");
}

// The place that is chosen for a client of UDP in the data of these lines.
fn chosen(rt: &impl Abort, alloc: Global, lines: &[&str]) -> Option<usize> {
    let data = data_of(rt, alloc, lines);
    chosen_in(rt, alloc, &data)
}

fn chosen_in(rt: &impl Abort, alloc: Global, data: &[Data]) -> Option<usize> {
    let preference = Vec::from_slice(alloc, &[Transport::Udp]).expect(rt, "out of memory");
    let client = Abilities::new(preference, Families::V4).expect(rt, "abilities");
    choose_pointer(data, false, &client)
}

fn choose_each(rt: &impl Abort, alloc: Global, rows: &[(&[&str], Option<usize>)]) {
    for (lines, place) in rows {
        let found = chosen(rt, alloc, lines);
        expects_equal(rt, &found, place, "the place");
    }
}

// A set of the store has data of one kind.
#[test]
fn data_of_other_kinds_do_not_decide(rt: HostRuntime) {
    const ROWS: &[(&[&str], Option<usize>)] = &[
        (&["a. TXT x", "a. CNAME a.", "a. SRV 0 0 5060 a."], None),
        (
            &[
                "a. TXT x",
                "a. CNAME a.",
                "a. SRV 0 0 5060 a.",
                "a. NAPTR 1 1 s SIP+D2U \"\" a.",
            ],
            Some(3),
        ),
    ];
    choose_each(&rt, rt.alloc(), ROWS);
}
