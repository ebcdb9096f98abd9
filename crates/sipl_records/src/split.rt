ghost use Rattle.std.specs.Prelude.{◌≡◌, ◌==◌, ◌<◌, ◌++◌, ◌∷◌, false, length, MatchOption, IfSome};
ghost use Rattle.std.specs.List.{list_any};
ghost use Rattle.std.specs.Option.{option_copied};
ghost use Rattle.sipl_records.specs.Parts.{split_once};

use memchr::memchr;

/// The text before the first separator, and the text after it; where there is no separator, the
/// whole text and `None`.
pub fn split_once(text: &[u8], separator: u8) -> (&[u8], Option<&[u8]>)
    ensures before { result.0.now ≡ (split_once separator text.now).0 }
    ensures after { option_copied result.1 ≡ (split_once separator text.now).1 }
    ensures whole { MatchOption result.1 (text.now ≡ result.0.now)
        (λ rest. text.now ≡ result.0.now ++ separator ∷ rest.now) }
    ensures first { list_any (λ octet. octet == separator) result.0.now ≡ false }
    ensures shorter { IfSome result.1 (λ rest. length rest.now < length text.now) }
{
    match memchr(separator, text) {
        Some(end) => (&text[..end], Some(&text[end + 1..])),
        None => (text, None),
    }
}
