//! The octets of URIs (RFC 3261, 25.1).
ghost use Rattle.std.specs.Prelude.{◌≡◌};
ghost use Rattle.sipl_uri.specs.UriOctets.{is_uri_octet};

// Whether a URI can have the octet after its scheme.
pub(crate) fn is_uri_octet(octet: u8) -> bool
    ensures { result ≡ is_uri_octet octet }
{
    octet.is_ascii_graphic() && !matches!(octet, b'"' | b'<' | b'>')
}
