//! The place of a record among records with codes, some of which were removed.
ghost use Rattle.std.specs.Prelude.{◌≡◌, ◌≤◌, ◌<◌, length, drop, true, vec_len, vec_capacity};
ghost use Rattle.std.specs.List.{list_any};
ghost use Rattle.sipl_records.specs.Codes.{code_of_name};
ghost use Rattle.sipl_records.specs.Sets.{same_record};
ghost use Rattle.sipl_zonestore.specs.RecordList.{is_first, live};

use crate::owner_codes::write_codes;
use sipl_records::{Record, name_code};

// The place of the record that is equal to this one, and was not removed.
pub(crate) fn find_place(records: &[Record], codes: &[u32], sought: &Record) -> usize
    requires long { length codes.now ≡ length records.now }
    requires present { list_any (same_record sought.now) (live records.now codes.now) ≡ true }
    ensures within { result < length records.now }
    ensures found { is_first sought.now (drop result records.now) (drop result codes.now) ≡ true }
{
    let code = name_code(&sought.owner);
    let mut place = 0;
    while !is_at(records, codes, place, code, sought) {
        place += 1;
    }
    place
}

// Whether a record that was not removed, and is equal to this one, has the place.
fn is_at(records: &[Record], codes: &[u32], place: usize, code: u32, sought: &Record) -> bool
    requires long { length codes.now ≡ length records.now }
    requires within { place < length records.now }
    requires code { code ≡ code_of_name sought.now.owner }
    ensures { result ≡ is_first sought.now (drop place records.now) (drop place codes.now) }
{
    codes[place] == code && *sought == records[place]
}

// Moves the records that were not removed together, and drops the others. Does not allocate.
pub(crate) fn move_together(records: &mut Vec<Record>, codes: &[u32])
    requires { length codes.now ≡ vec_len records.old }
    ensures records { records.new.items ≡ live records.old.items codes.now }
    ensures capacity { vec_capacity records.old ≤ vec_capacity records.new }
{
    let mut kept = 0;
    for place in 0..codes.len() {
        if codes[place] == name_code(&records[place].owner) {
            records.swap(kept, place);
            kept += 1;
        }
    }
    records.truncate(kept);
}

// Moves the records that were not removed together, where one was removed. Does not allocate.
pub(crate) fn compact(records: &mut Vec<Record>, codes: &mut Vec<u32>, len: usize)
    requires long { length codes.old.items ≡ vec_len records.old }
    requires counted { len ≡ length (live records.old.items codes.old.items) }
    ensures records { records.new.items ≡ live records.old.items codes.old.items }
    ensures whole { live records.new.items codes.new.items ≡ records.new.items }
    ensures long { length codes.new.items ≡ vec_len records.new }
    ensures capacity { vec_capacity records.old ≤ vec_capacity records.new }
    ensures codes_capacity { vec_capacity codes.old ≤ vec_capacity codes.new }
{
    if len == records.len() {
        return;
    }
    move_together(records, codes);
    write_codes(codes, records);
}
