// The random words of a `find` line.
ghost use Rattle.std.specs.Prelude.{◌≡◌};
ghost use Rattle.sipl_records.specs.Fields.{fields_of};
ghost use Rattle.sipl_lines.specs.DrawsField.{draws_of, draws_of_form, draws_of_seed, draws_of_words};

use sipl_records::{next_field, read_number, split_once};
use sipl_srv::{Draws, DrawsFault};

// One word more than draws can have: with so many they are refused, whatever follows.
const MAX_KEPT_WORDS: usize = 33;

// The draws that these fields give: none, for which all words are 0; `seed N`, where N is a number
// of 64 bits; or `words W,W,..`, where each W is one of 32 bits, with V1 for more than 32 words.
// `None` for other fields. Linear in the length of the fields; does not allocate.
pub(crate) fn read_draws(fields: &[u8]) -> Option<Result<Draws, DrawsFault>>
    ensures { result ≡ draws_of (fields_of fields.now) }
{
    let Some((form, rest)) = next_field(fields) else {
        return Some(Draws::from_words(&[]));
    };
    let (text, rest) = next_field(rest)?;
    if next_field(rest).is_some() {
        return None;
    }
    read_form(form, text)
}

// The draws of `seed` or `words`, and the text after it.
fn read_form(form: &[u8], text: &[u8]) -> Option<Result<Draws, DrawsFault>>
    ensures { result ≡ draws_of_form form.now text.now }
{
    match form {
        b"seed" => read_seed(text),
        b"words" => read_words(text),
        _ => None,
    }
}

// The draws of `seed N`.
fn read_seed(text: &[u8]) -> Option<Result<Draws, DrawsFault>>
    ensures { result ≡ draws_of_seed text.now }
{
    let seed = read_number(text, u64::MAX)?;
    Some(Ok(Draws::from_seed(seed)))
}

// The draws of `words W,W,..`.
fn read_words(text: &[u8]) -> Option<Result<Draws, DrawsFault>>
    ensures { result ≡ draws_of_words text.now }
{
    let mut words = [0; MAX_KEPT_WORDS];
    let mut count = 0;
    let mut rest = Some(text);
    while let Some(text) = rest {
        let (part, tail) = split_once(text, b',');
        let word = read_number(part, u64::from(u32::MAX))?;
        if count < MAX_KEPT_WORDS {
            words[count] = word as u32;
            count += 1;
        }
        rest = tail;
    }
    Some(Draws::from_words(&words[..count]))
}
