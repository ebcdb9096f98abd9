//! Codes of owners, by which a record is found among many.
ghost use Rattle.std.specs.Prelude.{◌≡◌, ◌≤◌, ◌+◌, ◌++◌, length, false, nat_eq, vec_len, vec_capacity};
ghost use Rattle.sipl_zonestore.specs.RecordList.{codes_of};

use sipl_records::{Record, name_code};

// Another code than this.
pub(crate) fn other_code(code: u32) -> u32
    ensures { nat_eq result code ≡ false }
{
    if code == 0 { 1 } else { 0 }
}

// Writes the codes of the records' owners. Does not allocate.
pub(crate) fn write_codes(codes: &mut Vec<u32>, records: &[Record])
    requires { length records.now ≤ vec_capacity codes.old }
    ensures codes { codes.new.items ≡ codes_of records.now }
    ensures capacity { vec_capacity codes.old ≤ vec_capacity codes.new }
{
    codes.clear();
    push_codes(codes, records);
}

// Appends the codes of the records' owners. Does not allocate.
pub(crate) fn push_codes(codes: &mut Vec<u32>, records: &[Record])
    requires { vec_len codes.old + length records.now ≤ vec_capacity codes.old }
    ensures codes { codes.new.items ≡ codes.old.items ++ codes_of records.now }
    ensures capacity { vec_capacity codes.old ≤ vec_capacity codes.new }
{
    for record in records {
        codes.push_reserved(name_code(&record.owner));
    }
}
