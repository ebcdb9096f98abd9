//! The text of branches.

ghost use Rattle.std.specs.Prelude.{◌≡◌, ◌≤◌, ◌+◌, ◌++◌, length, IsOk, OnOk, OnErr, vec_len, vec_capacity};
ghost use Rattle.std.specs.Int.{to_be_bytes, w64};
ghost use Rattle.hex.specs.Hex.{encode_lower};
ghost use Rattle.sipl_failover.specs.Branch.{branch_of};

use itoa::Buffer;
use std::alloc::AllocError;

// Appends the branch of this attempt.
pub(crate) fn write_branch(base: u64, attempt: u32, out: &mut Vec<u8>) -> Result<(), AllocError>
    ensures ok { OnOk result (out.new.items ≡ out.old.items ++ branch_of base attempt) }
    ensures err { OnErr result (out.new.items ≡ out.old.items) }
    ensures capacity { vec_capacity out.old ≤ vec_capacity out.new }
    ensures succeeds { vec_len out.old + length (branch_of base attempt) ≤ vec_capacity out.old →
        IsOk result }
{
    let mut buffer = Buffer::new();
    let attempt = buffer.format(attempt).as_bytes();
    let base = hex_digits(base);
    out.reserve(b"z9hG4bK".len() + base.len() + b".".len() + attempt.len())?;
    out.extend_from_slice(b"z9hG4bK")?;
    out.extend_from_slice(&base)?;
    out.extend_from_slice(b".")?;
    out.extend_from_slice(attempt)
}

// The number as 16 lower-case hexadecimal digits.
fn hex_digits(number: u64) -> [u8; 16]
    ensures { result ≡ encode_lower (to_be_bytes w64 number) }
{
    let mut digits = [0; 16];
    let _ = hex::encode_to_slice(number.to_be_bytes(), &mut digits);
    digits
}
