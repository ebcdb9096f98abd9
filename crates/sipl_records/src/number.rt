ghost use Rattle.std.specs.Prelude.{◌≡◌};
ghost use Rattle.sipl_records.specs.Numbers.{number_of};

/// Reads a decimal number of one or more digits. `None` where the text is empty, where it has an
/// octet that is not a digit, and where the number is greater than `max`.
pub fn read_number(text: &[u8], max: u64) -> Option<u64>
    ensures { result ≡ number_of text.now max }
{
    if text.is_empty() {
        return None;
    }
    let mut value = 0u64;
    for octet in text {
        if !octet.is_ascii_digit() {
            return None;
        }
        value = value
            .checked_mul(10)?
            .checked_add(u64::from(*octet - b'0'))?;
        if value > max {
            return None;
        }
    }
    Some(value)
}
