// Sessions and scripts that are read and written octet by octet, and whose streams fail at each read and at
// each write.
use super::assertions::{expects_at, expects_equal};
use super::rows::{Row, Texts, rows_before, rows_within};
use super::streams::{Failing, Paper, Pieces, Served, new_book, serve_at};
use sipl_book::{Book, Limits};
use sipl_lines::{Ended, MAX_READS, ServeFault, Settings, Tapped, play_script_within};
use std::alloc::Global;
use std::process::Abort;
use std::test::Fail;

// The rows of a session or of a script, how many events each row of a session records, and their texts.
#[derive(Clone, Copy)]
struct Case<'a> {
    rows: &'a [Row],
    events: Option<&'a [usize]>,
    texts: &'a Texts,
}

impl Case<'_> {
    // How many events the first rows record.
    fn events_of(&self, rows: usize) -> Option<usize> {
        let events = self.events?;
        let mut total = 0_usize;
        for events in &events[..rows.min(events.len())] {
            total = total.saturating_add(*events);
        }
        Some(total)
    }
}

// The lengths of what is read and written at once, the read and the write that fail, from 1, how the write
// does, and how many reads there may be. The streams are made of these where nothing can fail any more.
#[derive(Clone, Copy)]
struct Streams {
    read_most: usize,
    read_fails_at: u64,
    write_most: usize,
    write_fails_at: u64,
    failing: Failing,
    limit: u64,
}

// Each octet is read by itself, and all is written at once.
const WELL: Streams = Streams {
    read_most: 1,
    read_fails_at: 0,
    write_most: usize::MAX,
    write_fails_at: 0,
    failing: Failing::Error,
    limit: MAX_READS,
};

// Serves a session at a new book, or plays a script. Returns what that came to, and how many events the book
// has.
fn run(alloc: Global, case: &Case<'_>, streams: &Streams) -> Result<(Served, Option<usize>), Fail> {
    if case.events.is_none() {
        return Ok((play(alloc, case, streams)?, None));
    }
    let book = new_book(alloc, &Limits::greatest())?;
    let (served, events) = serve_once(alloc, case, streams, book);
    Ok((served, Some(events)))
}

fn writer_of(alloc: Global, streams: &Streams) -> Paper {
    Paper::new(
        alloc,
        streams.write_most,
        streams.failing,
        streams.write_fails_at,
    )
}

fn serve_once(
    alloc: Global,
    case: &Case<'_>,
    streams: &Streams,
    mut book: Box<Book>,
) -> (Served, usize) {
    let input = &case.texts.input;
    let reader = Pieces::new(input, streams.read_most, streams.read_fails_at);
    let writer = writer_of(alloc, streams);
    let served = serve_at(alloc, reader, writer, &mut book, streams.limit);
    let events = book.journal().len();
    drop(book);
    (served, events)
}

fn play(alloc: Global, case: &Case<'_>, streams: &Streams) -> Result<Served, Fail> {
    let settings = Settings::from_toml(alloc, "transports = [\"tcp\", \"udp\"]")?;
    let input = &case.texts.input;
    let pieces = Pieces::new(input, streams.read_most, streams.read_fails_at);
    let mut reader = Tapped::new(pieces);
    let mut writer = Tapped::new(writer_of(alloc, streams));
    let ended = play_script_within(alloc, &mut reader, &mut writer, settings, streams.limit);
    Ok(Served::new(ended, reader, writer))
}

// Whether it ended so after this many reads, with these replies, which are flushed, and the stream that
// failed is the reader where that is the fault.
fn ended_after(served: &Served, ended: ServeFault, reads: u64, replies: &[u8]) -> bool {
    served.ended == Err(ended)
        && served.read_failed == (ended == ServeFault::Read)
        && !served.write_failed
        && served.reads == reads
        && served.text.as_slice() == replies
        && served.flushed == replies.len()
}

// Whether it failed at this write, of one octet each, after a prefix of the replies.
fn failed_at_write(served: &Served, fails_at: u64, replies: &[u8]) -> bool {
    let text = served.text.as_slice();
    served.ended == Err(ServeFault::Write)
        && served.write_failed
        && !served.read_failed
        && text.len() as u64 == fails_at.saturating_sub(1)
        && replies.starts_with(text)
}

// Whether it ended with its input, and with these replies.
fn ended_well(served: &Served, replies: &[u8]) -> bool {
    served.ended == Ok(Ended::EndOfInput)
        && !served.read_failed
        && !served.write_failed
        && served.text.as_slice() == replies
}

// Whether the case whose read of this number fails, or is one more than there may be, shows the commands
// that were accepted before, and no others.
fn ends_at_read(
    alloc: Global,
    case: &Case<'_>,
    ended: ServeFault,
    number: u64,
) -> Result<bool, Fail> {
    let is_failure = ended == ServeFault::Read;
    let (read_fails_at, limit, read) = if is_failure {
        (number, MAX_READS, number.saturating_sub(1))
    } else {
        (0, number, number)
    };
    let streams = Streams {
        read_fails_at,
        limit,
        ..WELL
    };
    let (served, events) = run(alloc, case, &streams)?;
    let replies = case.texts.replies_within(case.rows, read);
    let is_so = ended_after(&served, ended, number, replies);
    drop(served);
    Ok(is_so && events == case.events_of(rows_within(case.rows, read)))
}

fn ends_at_each_read(
    rt: &impl Abort,
    alloc: Global,
    case: &Case<'_>,
    ended: ServeFault,
    last: u64,
) -> Result<(), Fail> {
    for number in 1..=last {
        expects_at(
            rt,
            ends_at_read(alloc, case, ended, number)?,
            "at read",
            &number,
        );
    }
    Ok(())
}

// The same for the case whose write of this number fails so.
fn fails_at_write(
    alloc: Global,
    case: &Case<'_>,
    failing: Failing,
    fails_at: u64,
) -> Result<bool, Fail> {
    let streams = Streams {
        write_most: 1,
        write_fails_at: fails_at,
        failing,
        ..WELL
    };
    let (served, events) = run(alloc, case, &streams)?;
    let is_so = failed_at_write(&served, fails_at, &case.texts.replies);
    drop(served);
    Ok(is_so && events == case.events_of(rows_before(case.rows, fails_at)))
}

fn fails_at_each_write(
    rt: &impl Abort,
    alloc: Global,
    case: &Case<'_>,
    failing: Failing,
) -> Result<(), Fail> {
    let writes = case.texts.replies.len() as u64;
    for number in 1..=writes {
        expects_at(
            rt,
            fails_at_write(alloc, case, failing, number)?,
            "at write",
            &number,
        );
    }
    Ok(())
}

// Whether the case, read and written in pieces of this length, ends with its input, and has all replies.
fn ends_in_pieces(alloc: Global, case: &Case<'_>, most: usize) -> Result<bool, Fail> {
    let streams = Streams {
        read_most: most,
        write_most: most,
        ..WELL
    };
    let (served, _) = run(alloc, case, &streams)?;
    let is_so = ended_well(&served, &case.texts.replies);
    drop(served);
    Ok(is_so)
}

fn ends_in_each_pieces(rt: &impl Abort, alloc: Global, case: &Case<'_>) -> Result<(), Fail> {
    for most in 1..50 {
        expects_at(
            rt,
            ends_in_pieces(alloc, case, most)?,
            "in pieces of",
            &most,
        );
    }
    Ok(())
}

// That the case ends so at each of its reads and writes, and does not depend on their sizes.
fn ends_everywhere(rt: &impl Abort, alloc: Global, case: &Case<'_>) -> Result<(), Fail> {
    let reads = case.texts.input.len() as u64;
    ends_in_each_pieces(rt, alloc, case)?;
    ends_at_each_read(rt, alloc, case, ServeFault::Read, reads.saturating_add(1))?;
    ends_at_each_read(rt, alloc, case, ServeFault::TooManyTurns, reads)?;
    fails_at_each_write(rt, alloc, case, Failing::Error)?;
    fails_at_each_write(rt, alloc, case, Failing::TakesNothing)
}

fn ends_on(
    rt: &impl Abort,
    alloc: Global,
    rows: &[Row],
    events: Option<&[usize]>,
) -> Result<(), Fail> {
    let texts = Texts::new(alloc, rows)?;
    let case = Case {
        rows,
        events,
        texts: &texts,
    };
    let has_ended = ends_everywhere(rt, alloc, &case);
    drop(texts);
    has_ended
}

const THREE_ROWS: &[Row] = &[
    (b"zone e. 0\n", b"ok zone 0 0 0 0\n"),
    (b"add a.e. A 1.2.3.4\n", b"ok add 1\n"),
    (b"find sip:a.e:7\n", b"target 1 udp 1.2.3.4 7\nok find 1\n"),
];

#[test]
fn failed_streams_leave_three_accepted_commands(rt: HostRuntime) -> Result<(), Fail> {
    ends_on(&rt, rt.alloc(), THREE_ROWS, Some(&[1, 1, 1]))
}

// Zones whose lines are read in pieces, and one that the end of the input ends.
const ZONE_ROWS: &[Row] = &[
    (b"find x\n", b"err U1\n"),
    (b"zone e. 3\n;a\r\n\n; quit\n", b"ok zone 0 0 0 0\n"),
    (b"find x\n", b"err U1\n"),
    (b"zone e. 2\nquit", b"err zone 1 Z2\n"),
];

// A reading that fails in a zone is a case of its own: here the last reply comes with the end alone.
#[test]
fn a_zone_does_not_depend_on_the_sizes_of_reads(rt: HostRuntime) -> Result<(), Fail> {
    let texts = Texts::new(rt.alloc(), ZONE_ROWS)?;
    let case = Case {
        rows: ZONE_ROWS,
        events: Some(&[0, 1, 0, 0]),
        texts: &texts,
    };
    let has_ended = ends_in_each_pieces(&rt, rt.alloc(), &case);
    drop(texts);
    has_ended
}

// A question, holds that end, and a call whose two servers fail.
const CALL_ROWS: &[Row] = &[
    (
        b"zone example.com. 7
@ NAPTR 50 50 \"s\" \"SIPS+D2T\" \"\" _sips._tcp
@ NAPTR 90 50 \"s\" \"SIP+D2T\" \"\" _sip._tcp
@ NAPTR 100 50 \"s\" \"SIP+D2U\" \"\" _sip._udp
_sip._tcp SRV 0 1 5060 server1
_sip._tcp SRV 0 2 5060 server2
server1 A 192.0.2.1
server2 A 192.0.2.2
",
        b"ok zone 7 0 0 4\n",
    ),
    (
        b"find sip:bob@example.com words 2,0\n",
        b"target 1 tcp 192.0.2.2 5060\ntarget 2 tcp 192.0.2.1 5060\nok find 2\n",
    ),
    (b"hold tcp 192.0.2.2 5060 5000\n", b"ok hold\n"),
    (b"hold tcp 192.0.2.2 5060 100\n", b"ok hold\n"),
    (b"clock 4999\n", b"ok clock 4999\n"),
    (
        b"find sip:bob@example.com words 2,0\n",
        b"target 1 tcp 192.0.2.1 5060\nok find 1\n",
    ),
    (b"clock 5000\n", b"ok clock 5000\n"),
    (b"clock 4000\n", b"err O1\n"),
    (b"release tcp 192.0.2.2 5060\n", b"err O3\n"),
    (
        b"call invite 1 sip:bob@example.com words 2,0\n",
        b"send 1 tcp 192.0.2.2 5060 z9hG4bK0000000000000001.1\nok call\n",
    ),
    (
        b"got 1 503 retry 10\n",
        b"ack 1
hold tcp 192.0.2.2 5060 10000
send 2 tcp 192.0.2.1 5060 z9hG4bK0000000000000001.2
ok got
",
    ),
    (
        b"clock 37000\n",
        b"hold tcp 192.0.2.1 5060 30000\ndeliver 408\nexhausted\nok clock 37000\n",
    ),
];

const CALL_EVENTS: &[usize] = &[1, 1, 1, 1, 1, 1, 1, 0, 0, 1, 1, 2];

#[test]
fn failed_streams_leave_the_accepted_commands(rt: HostRuntime) -> Result<(), Fail> {
    ends_on(&rt, rt.alloc(), CALL_ROWS, Some(CALL_EVENTS))
}

// A worker whose first set changes while it reads.
const SCRIPT_ROWS: &[Row] = &[
    (b"workers 1\n", b""),
    (b"zone example.com. 0\n", b"ok zone 0 0 0 0\n"),
    (b"start 0 sip:example.com\n", b"ok start\n"),
    (b"read 0\n", b"ok read example.com. NAPTR 0\n"),
    (
        b"add example.com. NAPTR 90 50 \"s\" \"SIP+D2T\" \"\" _sip._tcp.example.com.\n",
        b"ok add 1\n",
    ),
    (b"read 0\n", b"ok read example.com. CNAME 0\n"),
    (b"read 0\n", b"ok read example.com. EXISTS 1\n"),
    (b"read 0\n", b"ok read _sip._tcp.example.com. SRV 0\n"),
    (b"read 0\n", b"ok read _sip._tcp.example.com. CNAME 0\n"),
    (b"read 0\n", b"ok read _sip._tcp.example.com. EXISTS 0\n"),
    (b"read 0\n", b"ok read _tcp.example.com. EXISTS 0\n"),
    (b"read 0\n", b"ok read *.example.com. SRV 0\n"),
    (b"read 0\n", b"ok read *.example.com. CNAME 0\n"),
    (b"read 0\n", b"ok read _sip._udp.example.com. SRV 0\n"),
    (b"read 0\n", b"ok read _sip._udp.example.com. CNAME 0\n"),
    (b"read 0\n", b"ok read _sip._udp.example.com. EXISTS 0\n"),
    (b"read 0\n", b"ok read _udp.example.com. EXISTS 0\n"),
    (b"read 0\n", b"ok read example.com. A 0\n"),
    (b"commit 0\n", b"err B2 example.com. NAPTR\n"),
];

#[test]
fn failed_streams_of_a_script_leave_a_prefix_of_its_replies(rt: HostRuntime) -> Result<(), Fail> {
    ends_on(&rt, rt.alloc(), SCRIPT_ROWS, None)
}

// ---- the end

// How a session ends that quits before its input does, and after how many reads.
fn quit_after(alloc: Global) -> Result<(Result<Ended, ServeFault>, u64), Fail> {
    let mut book = new_book(alloc, &Limits::greatest())?;
    let reader = Pieces::new(b"quit\nfind tel:1\n", 5, 2);
    let served = serve_at(alloc, reader, Paper::blank(alloc), &mut book, MAX_READS);
    drop(book);
    let ended = (served.ended, served.reads);
    let is_so = served.text.as_slice() == b"ok quit\n".as_slice();
    drop(served);
    if is_so {
        Ok(ended)
    } else {
        Ok((Err(ServeFault::Write), 0))
    }
}

#[test]
fn quit_reads_no_more(rt: HostRuntime) -> Result<(), Fail> {
    let ended = quit_after(rt.alloc())?;
    expects_equal(&rt, &ended, &(Ok(Ended::Quit), 1), "the end and the reads");
    expects_equal(&rt, &MAX_READS, &4_294_967_296, "the maximum of reads");
    Ok(())
}
