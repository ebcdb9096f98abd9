// States and logs of the daemon: their octets, whose digests are those of Python's `hashlib`, and what is
// read of octets that were cut or changed.
use sipl_commits::{LogFault, Point, read_log, read_state, write_commit, write_head, write_state};
use std::alloc::{AllocError, Global};

const STATE: &[u8] =
    b"siplocd state 2\n# page 3\nsha256 47826600c96dc446eb4415c3c63f3066eee60f9d005cb1\
    294f10cb0814776ee9\n";

const HEAD: &[u8] =
    b"siplocd log 2 0000000000000003 47826600c96dc446eb4415c3c63f3066eee60f9d005cb1294\
    f10cb0814776ee9 sha256 155ee2dd5af3a8e5bc1e31770078dca5f34c1f14aa4da66e4560d3d5d\
    5d3751e\n";

const FIRST: &[u8] =
    b"\tcommit 0000000000000004 0000000000000012 3b82846fe86abe4c14e4424102d7d62859bd4\
    809c94421374072e653949e087f sha256 073ef74ed1677fd150da68a95c63b97bd5c310195a764\
    1d4d4dde20fd331ebeb\ndrop example.com.\n";

const SECOND: &[u8] =
    b"\tcommit 0000000000000005 0000000000000008 ff6fb2ebc5013660373c69168d2a553108e87\
    5c10acc0608c8d4e0c427b3e7c5 sha256 c8e175aa71cdd5d5fa73b7f279b9f4eb4775908adc00b\
    ae29e10b1d83b59c51c\nclock 5\n";

// The digest of the state.
const DIGEST: [u8; 32] = [
    0x47, 0x82, 0x66, 0x00, 0xc9, 0x6d, 0xc4, 0x46, 0xeb, 0x44, 0x15, 0xc3, 0xc6, 0x3f, 0x30, 0x66,
    0xee, 0xe6, 0x0f, 0x9d, 0x00, 0x5c, 0xb1, 0x29, 0x4f, 0x10, 0xcb, 0x08, 0x14, 0x77, 0x6e, 0xe9,
];

// The point that the log begins with.
const POINT: Point = Point {
    number: 3,
    digest: DIGEST,
};

fn state(alloc: Global) -> Result<Vec<u8>, AllocError> {
    let mut text = Vec::new(alloc);
    write_state(alloc, &mut text, b"# page 3\n")?;
    Ok(text)
}

fn log(alloc: Global) -> Result<Vec<u8>, AllocError> {
    let mut text = Vec::new(alloc);
    write_head(alloc, &mut text, &POINT)?;
    let first = write_commit(alloc, &mut text, &POINT, b"drop example.com.\n")?;
    write_commit(alloc, &mut text, &first, b"clock 5\n")?;
    Ok(text)
}

// The text of these parts.
fn joined(alloc: Global, parts: &[&[u8]]) -> Result<Vec<u8>, AllocError> {
    let mut text = Vec::new(alloc);
    for part in parts {
        text.extend_from_slice(part)?;
    }
    Ok(text)
}

// What is read of a state: how many octets its body has, or why there is none.
fn state_reading(alloc: Global, octets: &[u8]) -> Result<String, AllocError> {
    match read_state(alloc, octets) {
        Ok(state) => {
            let is_same = state.digest == DIGEST;
            format!(in alloc; "{} octets, {is_same}", state.body.len())
        }
        Err(fault) => format!(in alloc; "{fault}"),
    }
}

// What is read of a log: how many commits, and how many octets are left; or why there is none.
fn log_reading(alloc: Global, octets: &[u8]) -> Result<String, AllocError> {
    match read_log(alloc, octets, &POINT) {
        Ok(log) => format!(in alloc; "{} commits, {} left", log.commits.len(), log.tail.len()),
        Err(fault) => format!(in alloc; "{fault}"),
    }
}

// Whether a state is read so.
fn state_reads(alloc: Global, octets: &[u8], expected: &str) -> bool {
    match state_reading(alloc, octets) {
        Ok(found) => found.as_str() == expected,
        Err(AllocError) => false,
    }
}

// Whether the log of these parts is read so.
fn log_reads(alloc: Global, parts: &[&[u8]], expected: &str) -> bool {
    match read_parts(alloc, parts) {
        Ok(found) => found.as_str() == expected,
        Err(AllocError) => false,
    }
}

fn read_parts(alloc: Global, parts: &[&[u8]]) -> Result<String, AllocError> {
    let text = joined(alloc, parts)?;
    log_reading(alloc, &text)
}

// How a log is read that was cut at a place, of the whole one's three parts.
fn cut_reading(alloc: Global, place: usize) -> Result<String, AllocError> {
    if place < 168 {
        format!(in alloc; "line 1")
    } else if place < 365 {
        format!(in alloc; "0 commits, {} left", place - 168)
    } else if place < 552 {
        format!(in alloc; "1 commits, {} left", place - 365)
    } else {
        format!(in alloc; "2 commits, 0 left")
    }
}

// How a log is read of which one octet was changed.
fn changed_reading(place: usize) -> &'static str {
    if place < 168 {
        "line 1"
    } else if place < 365 {
        "octet 168"
    } else {
        "1 commits, 187 left"
    }
}

// Whether the log is read as it is to be, cut at a place.
fn is_read_cut(alloc: Global, text: &[u8], place: usize) -> Result<bool, AllocError> {
    let found = log_reading(alloc, text.get(..place).unwrap_or(&[]))?;
    Ok(found.as_str() == cut_reading(alloc, place)?.as_str())
}

// A text with one bit of each octet flipped in turn.
fn changed(alloc: Global, text: &[u8], place: usize) -> Result<Vec<u8>, AllocError> {
    let mut changed = Vec::from_slice(alloc, text)?;
    if let Some(octet) = changed.get_mut(place) {
        *octet ^= 1;
    }
    Ok(changed)
}

// At how many places the log is read as it is to be, if it is cut there.
fn count_cuts(alloc: Global) -> Result<usize, AllocError> {
    let text = log(alloc)?;
    let mut count = 0;
    for place in 0..=text.len() {
        if is_read_cut(alloc, &text, place)? && count < usize::MAX {
            count += 1;
        }
    }
    Ok(count)
}

// At how many places the log is read as it is to be, if the octet there is changed.
fn count_changes(alloc: Global) -> Result<usize, AllocError> {
    let text = log(alloc)?;
    let mut count = 0;
    for place in 0..text.len() {
        let found = log_reading(alloc, &changed(alloc, &text, place)?)?;
        if found.as_str() == changed_reading(place) && count < usize::MAX {
            count += 1;
        }
    }
    Ok(count)
}

// At how many places a state is refused, if the octet there is changed.
fn count_state_changes(alloc: Global) -> Result<usize, AllocError> {
    let mut count = 0;
    for place in 0..STATE.len() {
        let text = changed(alloc, STATE, place)?;
        let expected = if place < 16 {
            "line 1"
        } else {
            "its digest is another one"
        };
        if state_reads(alloc, &text, expected) && count < usize::MAX {
            count += 1;
        }
    }
    Ok(count)
}

#[test]
fn a_state_has_its_octets(rt: HostRuntime) {
    assert_eq!(rt; state(rt.alloc()).ok().as_deref(), Some(STATE));
}

#[test]
fn a_log_has_its_octets(rt: HostRuntime) {
    let expected = joined(rt.alloc(), &[HEAD, FIRST, SECOND]).ok();
    assert!(rt; log(rt.alloc()).ok() == expected);
}

#[test]
fn a_state_reads_back_whole_or_not_at_all(rt: HostRuntime) {
    let alloc = rt.alloc();
    assert!(rt; state_reads(alloc, STATE, "9 octets, true"));
    assert!(rt; state_reads(alloc, &STATE[..25], "its digest is another one"));
    assert!(rt; state_reads(alloc, b"", "line 1"));
    assert!(rt; state_reads(alloc, b"# page 3\n", "the first format"));
    assert_eq!(rt; count_state_changes(alloc), Ok(97));
}

#[test]
fn a_cut_log_has_its_first_commits(rt: HostRuntime) {
    assert_eq!(rt; count_cuts(rt.alloc()), Ok(553));
}

#[test]
fn a_changed_octet_is_found(rt: HostRuntime) {
    assert_eq!(rt; count_changes(rt.alloc()), Ok(552));
}

#[test]
fn commits_keep_their_order(rt: HostRuntime) {
    let alloc = rt.alloc();
    for (parts, expected) in [
        ([HEAD, FIRST, SECOND, b""], "2 commits, 0 left"),
        ([HEAD, SECOND, b"", b""], "octet 168"),
        ([HEAD, SECOND, FIRST, b""], "octet 168"),
        ([HEAD, FIRST, FIRST, SECOND], "octet 365"),
        ([HEAD, FIRST, b"\0\0", SECOND], "octet 365"),
        ([HEAD, FIRST, SECOND, b"\0\0"], "2 commits, 2 left"),
        ([HEAD, FIRST, SECOND, FIRST], "octet 552"),
    ] {
        assert!(rt; log_reads(alloc, &parts, expected), "{expected}");
    }
}

#[test]
fn other_logs_are_refused(rt: HostRuntime) {
    let alloc = rt.alloc();
    let other = Point {
        number: 4,
        digest: DIGEST,
    };
    let found = read_log(alloc, HEAD, &other);
    assert!(rt; matches!(found, Err(LogFault::OtherState)));
    assert!(rt; log_reads(alloc, &[b"# page 3\n"], "the first format"));
    assert!(rt; log_reads(alloc, &[b""], "line 1"));
}
