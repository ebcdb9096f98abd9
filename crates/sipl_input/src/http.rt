//! Requests of browsers. A web page can have a browser send its text to an address of this machine, and lines
//! in it would be carried out.

ghost use Rattle.std.specs.Prelude.{◌≡◌};
ghost use Rattle.std.specs.List.{list_any};
ghost use Rattle.sipl_input.specs.Methods.{begins_request, begins_with};

// The methods of HTTP (RFC 9110, 9.3; RFC 5789, 2), and the first word of HTTP/2 (RFC 9113, 3.4), each with
// the space after it.
const METHODS: &[&[u8]] = &[
    b"CONNECT ",
    b"DELETE ",
    b"GET ",
    b"HEAD ",
    b"OPTIONS ",
    b"PATCH ",
    b"POST ",
    b"PRI ",
    b"PUT ",
    b"TRACE ",
];

/// The length of the longest method, and the space after it.
pub(crate) const MAX_METHOD_LEN: usize = 8;

/// Whether a text begins as a request of HTTP does.
pub fn begins_request(text: &[u8]) -> bool
    ensures { result ≡ begins_request text.now }
{
    begins_with_any(text, METHODS)
}

// Whether a text begins with one of these words.
fn begins_with_any(text: &[u8], words: &[&[u8]]) -> bool
    ensures { result ≡ list_any (λ word. begins_with text.now word.now) words.now }
{
    words.iter().any(|word| begins_with(text, word))
}

fn begins_with(text: &[u8], word: &[u8]) -> bool
    ensures { result ≡ begins_with text.now word.now }
{
    text.starts_with(word)
}
