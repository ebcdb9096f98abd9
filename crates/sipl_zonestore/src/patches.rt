//! What a text changes in the list of records.
ghost use Rattle.std.specs.Prelude.{◌≡◌, ◌≤◌, ◌-◌, length, take, drop, true, false};
ghost use Rattle.std.specs.Bool.{OnTrue};
ghost use Rattle.std.specs.List.{list_all, list_any};
ghost use Rattle.sipl_names.specs.Labels.{is_within};
ghost use Rattle.sipl_zonestore.specs.Patches.{IsPatch};

use sipl_names::Name;
use sipl_records::Record;

// A part of a list of records, and the part of a text that takes its place.
#[derive(Clone, Copy)]
pub(crate) struct Patch {
    pub(crate) start: usize,
    pub(crate) end: usize,
    pub(crate) first: usize,
    pub(crate) last: usize,
    // Whether the records of the zone are last, so that all others stay where they are. Else the parts are
    // the whole list and the whole text.
    pub(crate) is_last: bool,
}

impl Patch {
    // Whether it changes nothing.
    pub(crate) fn is_empty(self) -> bool
        ensures last { OnTrue result (self.is_last ≡ true) }
        ensures old { OnTrue result (self.start ≡ self.end) }
        ensures new { OnTrue result (self.first ≡ self.last) }
    {
        self.is_last && self.start == self.end && self.first == self.last
    }
}

// What a text changes in the list of records. Where those of its zone are last, it is what lies between the
// first record that differs and the last one. Linear in the number of records. Does not allocate.
pub(crate) fn patch_of(records: &[Record], apex: &Name, text: &[Record]) -> Patch
    requires within { list_all (λ r. is_within r.owner apex.now) text.now ≡ true }
    ensures { IsPatch apex.now records.now text.now result }
{
    let place = first_within(records, apex);
    let zone = &records[place..];
    let same = common_start(zone, text);
    let ends = common_end(&zone[same..], &text[same..]);
    if !are_within(&zone[same..zone.len() - ends], apex) {
        return Patch {
            start: 0,
            end: records.len(),
            first: 0,
            last: text.len(),
            is_last: false,
        };
    }
    Patch {
        start: place + same,
        end: records.len() - ends,
        first: same,
        last: text.len() - ends,
        is_last: true,
    }
}

// How many records come before the first that is within the apex.
fn first_within(records: &[Record], apex: &Name) -> usize
    ensures limit { result ≤ length records.now }
    ensures none { list_any (λ r. is_within r.owner apex.now) (take result records.now) ≡ false }
{
    let mut place = 0;
    while place < records.len() && !records[place].owner.is_within(apex) {
        place += 1;
    }
    place
}

// Whether each record is within the apex.
fn are_within(records: &[Record], apex: &Name) -> bool
    ensures { result ≡ list_all (λ r. is_within r.owner apex.now) records.now }
{
    records.iter().all(|record| record.owner.is_within(apex))
}

// How many records two lists have in common at their starts.
fn common_start(a: &[Record], b: &[Record]) -> usize
    ensures limits { (result ≤ length a.now) × (result ≤ length b.now) }
    ensures same { take result a.now ≡ take result b.now }
{
    let mut count = 0;
    while count < a.len() && count < b.len() && a[count] == b[count] {
        count += 1;
    }
    count
}

// How many records two lists have in common at their ends.
fn common_end(a: &[Record], b: &[Record]) -> usize
    ensures limits { (result ≤ length a.now) × (result ≤ length b.now) }
    ensures same { drop (length a.now - result) a.now ≡ drop (length b.now - result) b.now }
{
    let mut count = 0;
    while count < a.len() && count < b.len() && a[a.len() - 1 - count] == b[b.len() - 1 - count] {
        count += 1;
    }
    count
}
