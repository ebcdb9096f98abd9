// The plays of a store.
use super::{A, EMPTY, Edit, FIRST_NAMES, Names, Step, play};
use sipl_records::Kind;
use sipl_zonestore::{MAX_NUMBER, MAX_RECORDS, StoreFault};

const ZONE: &str = "\
@ NAPTR 50 50 \"s\" \"SIPS+D2T\" \"\" _sips._tcp
@ NAPTR 90 50 \"s\" \"SIP+D2T\" \"\" _sip._tcp
@ NAPTR 100 50 \"s\" \"SIP+D2U\" \"\" _sip._udp
_sip._tcp SRV 0 1 5060 server1
_sip._tcp SRV 0 2 5060 server2
server1 A 192.0.2.1
server2 A 192.0.2.2
";

// Other data at `server2`, a new owner first, and no NAPTR records.
const LATER_ZONE: &str = "\
server3 A 192.0.2.3
_sip._tcp SRV 0 1 5060 server1
server1 A 192.0.2.1
_sip._tcp SRV 0 2 5060 server2
server2 A 192.0.2.9
server2 A 192.0.2.2
";

// The names that exist by the records of the zone alone.
const NAMES: Names = &["@", "com.", ".", "_sip._tcp", "_tcp", "server1", "server2"];

// The zone is loaded, and changes each of its sets.
const LOAD_ZONE: Step = Step::ChangesNames(
    Edit::Load("example.com.", ZONE),
    &[
        ("@", Kind::Pointer),
        ("_sip._tcp", Kind::Service),
        ("server1", A),
        ("server2", A),
    ],
    NAMES,
);

const REMOVES_AND_ADDS: &[Step] = &[
    Step::Starts,
    Step::HasNumbers(&[("server1", A, 3), ("server2", A, 2), ("server3", A, 0)]),
    Step::Changes(Edit::Remove("server1 A 192.0.2.1"), &[("server1", A)]),
    Step::HasNumbers(&[("server1", A, 4), ("server2", A, 2), ("server3", A, 0)]),
    Step::ChangesNames(
        Edit::Remove("server2 A 192.0.2.2"),
        &[("server2", A)],
        &["server2"],
    ),
    Step::HasNumbers(&[("server1", A, 4), ("server2", A, 0), ("server3", A, 0)]),
    Step::ChangesNames(
        Edit::Add("server2 A 192.0.2.2"),
        &[("server2", A)],
        &["server2"],
    ),
    Step::Changes(Edit::Add("server1 A 192.0.2.1"), &[("server1", A)]),
    Step::HasNumbers(&[("server1", A, 6), ("server2", A, 5), ("server3", A, 0)]),
    Step::HasRecords(&[
        "server1 A 192.0.2.3",
        "server2 A 192.0.2.2",
        "server1 A 192.0.2.1",
    ]),
];

const SPENDS_ALL_NUMBERS: &[Step] = &[
    Step::Changes(Edit::Load("example.com.", EMPTY), &[]),
    Step::ChangesNames(
        Edit::Add("server1 A 192.0.2.1"),
        &[("server1", A)],
        FIRST_NAMES,
    ),
    Step::HasNumbers(&[("server1", A, MAX_NUMBER), ("server2", A, 0)]),
    Step::Refuses(Edit::Add("server2 A 192.0.2.2"), StoreFault::NumberSpent),
    // An empty set takes no number, and neither does existence, nor data of which nothing is
    // kept.
    Step::ChangesNames(
        Edit::Remove("server1 A 192.0.2.1"),
        &[("server1", A)],
        FIRST_NAMES,
    ),
    Step::ChangesNames(Edit::AddBare("server1"), &[], FIRST_NAMES),
    Step::Refuses(Edit::AddBare("server1"), StoreFault::Duplicate),
    Step::Refuses(Edit::Add("server1 A 192.0.2.1"), StoreFault::NumberSpent),
    Step::ChangesNames(Edit::Unload("example.com."), &[], FIRST_NAMES),
];

const LOOKS: &[Step] = &[
    Step::Starts,
    Step::HasLooks(0),
    Step::HasSet(
        "server1",
        A,
        3,
        &["server1 A 192.0.2.1", "server1 A 192.0.2.3"],
    ),
    Step::HasLooks(1),
    Step::HasSet("server1", Kind::Address6, 0, &[]),
    Step::HasLooks(2),
    Step::HasNumbers(&[("server1", A, 3)]),
    Step::HasApexes(&["example.com."]),
    Step::HasLooks(2),
    Step::HasRecords(&[
        "server1 A 192.0.2.1",
        "server2 A 192.0.2.2",
        "server1 A 192.0.2.3",
    ]),
    Step::HasLooks(3),
    Step::Refuses(Edit::Add("server1 CNAME a"), StoreFault::AliasBesideData),
    Step::HasLooks(3),
];

const LOADS_AGAIN: &[Step] = &[
    LOAD_ZONE,
    Step::HasNumbers(&[
        ("@", Kind::Pointer, 1),
        ("_sip._tcp", Kind::Service, 2),
        ("server1", A, 3),
        ("server2", A, 4),
    ]),
    Step::HasSet(
        "@",
        Kind::Pointer,
        1,
        &[
            "@ NAPTR 50 50 \"s\" \"SIPS+D2T\" \"\" _sips._tcp",
            "@ NAPTR 90 50 \"s\" \"SIP+D2T\" \"\" _sip._tcp",
            "@ NAPTR 100 50 \"s\" \"SIP+D2U\" \"\" _sip._udp",
        ],
    ),
    Step::Changes(Edit::Load("example.com.", ZONE), &[]),
    Step::HasNumbers(&[
        ("@", Kind::Pointer, 1),
        ("_sip._tcp", Kind::Service, 2),
        ("server1", A, 3),
        ("server2", A, 4),
    ]),
];

const ADDS_AGAIN: &[Step] = &[
    LOAD_ZONE,
    Step::ChangesNames(
        Edit::Remove("server1 A 192.0.2.1"),
        &[("server1", A)],
        &["server1"],
    ),
    Step::ChangesNames(
        Edit::Add("server1 A 192.0.2.1"),
        &[("server1", A)],
        &["server1"],
    ),
    Step::HasNumbers(&[("server1", A, 5)]),
];

const LOADS_ANOTHER: &[Step] = &[
    LOAD_ZONE,
    Step::ChangesNames(
        Edit::Load("example.com.", LATER_ZONE),
        &[("@", Kind::Pointer), ("server2", A), ("server3", A)],
        &["server3"],
    ),
    Step::HasNumbers(&[
        ("@", Kind::Pointer, 0),
        ("_sip._tcp", Kind::Service, 2),
        ("server1", A, 3),
        ("server2", A, 5),
        ("server3", A, 6),
    ]),
];

const UNLOADS: &[Step] = &[
    LOAD_ZONE,
    Step::ChangesNames(
        Edit::Unload("example.com."),
        &[
            ("@", Kind::Pointer),
            ("_sip._tcp", Kind::Service),
            ("server1", A),
            ("server2", A),
        ],
        NAMES,
    ),
    Step::HasRecords(&[]),
    LOAD_ZONE,
    Step::HasNumbers(&[("server2", A, 8)]),
];

const LACKS_NUMBERS: &[Step] = &[
    Step::Refuses(Edit::Load("example.com.", ZONE), StoreFault::NumberSpent),
    Step::HasApexes(&[]),
    Step::HasRecords(&[]),
    Step::Refuses(
        Edit::Load("example.com.", LATER_ZONE),
        StoreFault::NumberSpent,
    ),
    Step::ChangesNames(
        Edit::Load(
            "example.com.",
            "a A 192.0.2.1\nb A 192.0.2.1\nc A 192.0.2.1\n",
        ),
        &[("a", A), ("b", A), ("c", A)],
        &["a", "@", "com.", ".", "b", "c"],
    ),
    Step::HasApexes(&["example.com."]),
];

// Records and apexes are in the order of addition.
const ADDS_TO_TWO_ZONES: &[Step] = &[
    Step::Starts,
    Step::Changes(Edit::Load("example.org.", EMPTY), &[]),
    Step::ChangesNames(
        Edit::Add("a.example.org. A 192.0.2.4"),
        &[("a.example.org.", A)],
        &["a.example.org.", "example.org.", "org."],
    ),
    Step::HasRecords(&[
        "server1 A 192.0.2.1",
        "server2 A 192.0.2.2",
        "server1 A 192.0.2.3",
        "a.example.org. A 192.0.2.4",
    ]),
    Step::HasApexes(&["example.com.", "example.org."]),
];

// A name that exists in both zones is not among those that change, and neither are those above it.
const NAMES_GO_AND_COME: &[Step] = &[
    Step::ChangesNames(
        Edit::Load("example.com.", "x.a TXT\nb.c.d TXT\na A 192.0.2.1\n"),
        &[("a", A)],
        &["x.a", "a", "@", "com.", ".", "b.c.d", "c.d", "d"],
    ),
    Step::ChangesNames(
        Edit::Load("example.com.", "e.c.d TXT\ny.x.a TXT\nf.g TXT\n"),
        &[("a", A)],
        &["b.c.d", "e.c.d", "y.x.a", "f.g", "g"],
    ),
    Step::ChangesNames(
        Edit::Load("example.com.", "c.d TXT\ng A 192.0.2.1\na TXT\n"),
        &[("g", A)],
        &["e.c.d", "y.x.a", "x.a", "f.g"],
    ),
    Step::Changes(
        Edit::Load("example.com.", "a TXT\nc.d TXT\ng A 192.0.2.2\n"),
        &[("g", A)],
    ),
];

const EIGHT: &str = "\
a A 192.0.2.1
b A 192.0.2.2
a A 192.0.2.3
c A 192.0.2.4
d A 192.0.2.5
e A 192.0.2.6
f MX 10 a
g A 192.0.2.8
";

const NAMES_OF_EIGHT: Names = &["a", "@", "com.", ".", "b", "c", "d", "e", "f", "g"];

// The zone is loaded: its sets have the numbers 1 to 6.
const LOAD_EIGHT: Step = Step::ChangesNames(
    Edit::Load("example.com.", EIGHT),
    &[("a", A), ("b", A), ("c", A), ("d", A), ("e", A), ("g", A)],
    NAMES_OF_EIGHT,
);

const OTHER_ZONE: Step = Step::ChangesNames(
    Edit::Load("example.org.", "b A 192.0.2.9"),
    &[("b.example.org.", A)],
    &["b.example.org.", "example.org.", "org."],
);

const TWO_SETS_CHANGED: &str = "\
a A 192.0.2.1
b A 192.0.2.22
a A 192.0.2.33
c A 192.0.2.4
d A 192.0.2.5
e A 192.0.2.6
f MX 10 a
g A 192.0.2.8
";

// The set whose first record is first changes first, whichever of its records is another.
const CHANGES_TWO_SETS: &[Step] = &[
    LOAD_EIGHT,
    Step::Changes(
        Edit::Load("example.com.", TWO_SETS_CHANGED),
        &[("a", A), ("b", A)],
    ),
    Step::HasSet("a", A, 7, &["a A 192.0.2.1", "a A 192.0.2.33"]),
    Step::HasSet("b", A, 8, &["b A 192.0.2.22"]),
];

const LAST_BUT_TWO_CHANGED: &str = "\
a A 192.0.2.1
b A 192.0.2.2
a A 192.0.2.3
c A 192.0.2.4
d A 192.0.2.5
e A 192.0.2.66
f MX 10 a
g A 192.0.2.8
";

// A zone that is not last becomes last.
const BECOMES_LAST: &[Step] = &[
    LOAD_EIGHT,
    OTHER_ZONE,
    Step::Changes(
        Edit::Load("example.com.", LAST_BUT_TWO_CHANGED),
        &[("e", A)],
    ),
    Step::HasSet("e", A, 8, &["e A 192.0.2.66"]),
    Step::HasNumbers(&[("g", A, 6), ("b.example.org.", A, 7)]),
    Step::HasRecords(&[
        "b.example.org. A 192.0.2.9",
        "a A 192.0.2.1",
        "b A 192.0.2.2",
        "a A 192.0.2.3",
        "c A 192.0.2.4",
        "d A 192.0.2.5",
        "e A 192.0.2.66",
        "f MX 10 a",
        "g A 192.0.2.8",
    ]),
    Step::HasApexes(&["example.com.", "example.org."]),
];

const ONE_MORE_AND_ONE_LESS: &str = "\
a A 192.0.2.1
b A 192.0.2.2
a A 192.0.2.3
c A 192.0.2.4
d A 192.0.2.5
f MX 10 a
g A 192.0.2.8
h A 192.0.2.9
";

// A record that was added to the zone is behind those of another zone.
const COMES_TOGETHER: &[Step] = &[
    LOAD_EIGHT,
    OTHER_ZONE,
    Step::ChangesNames(Edit::Add("h A 192.0.2.9"), &[("h", A)], &["h"]),
    Step::ChangesNames(
        Edit::Load("example.com.", ONE_MORE_AND_ONE_LESS),
        &[("e", A)],
        &["e"],
    ),
    Step::HasNumbers(&[("e", A, 0), ("h", A, 8), ("b.example.org.", A, 7)]),
    Step::HasRecords(&[
        "b.example.org. A 192.0.2.9",
        "a A 192.0.2.1",
        "b A 192.0.2.2",
        "a A 192.0.2.3",
        "c A 192.0.2.4",
        "d A 192.0.2.5",
        "f MX 10 a",
        "g A 192.0.2.8",
        "h A 192.0.2.9",
    ]),
];

#[test]
fn edits_change_these_keys_and_take_these_numbers(rt: HostRuntime) {
    let alloc = rt.alloc();
    play(&rt, alloc, 1, MAX_RECORDS as u64, REMOVES_AND_ADDS);
    play(&rt, alloc, MAX_NUMBER, 8, SPENDS_ALL_NUMBERS);
    play(&rt, alloc, 1, MAX_RECORDS as u64, LOOKS);
    play(&rt, alloc, 1, 8, LOADS_AGAIN);
    play(&rt, alloc, 1, 8, ADDS_AGAIN);
    play(&rt, alloc, 1, 8, LOADS_ANOTHER);
    play(&rt, alloc, 1, 8, UNLOADS);
    play(&rt, alloc, MAX_NUMBER - 2, 8, LACKS_NUMBERS);
    play(&rt, alloc, 1, MAX_RECORDS as u64, ADDS_TO_TWO_ZONES);
    play(&rt, alloc, 1, MAX_RECORDS as u64, NAMES_GO_AND_COME);
    play(&rt, alloc, 1, MAX_RECORDS as u64, CHANGES_TWO_SETS);
    play(&rt, alloc, 1, MAX_RECORDS as u64, BECOMES_LAST);
    play(&rt, alloc, 1, MAX_RECORDS as u64, COMES_TOGETHER);
}
