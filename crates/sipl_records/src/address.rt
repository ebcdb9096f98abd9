ghost use Rattle.std.specs.Prelude.{◌≡◌, ◌+◌, ◌++◌, length, Some, None, IfOk, IfErr, OnOk, OnErr, IsOk, ◌≤◌, vec_len, vec_capacity};
ghost use Rattle.sipl_records.specs.Addresses.{address_of, text_of_address};
ghost use Rattle.sipl_records.specs.Ipv4.{number_of_text};
ghost use Rattle.sipl_records.specs.Ipv6.{address6_of_text};

use crate::fault::AddressFault;
use crate::{address4, address6};
use std::alloc::AllocError;

/// Octets of the longest text of an address, eight groups of four digits.
pub const MAX_ADDRESS_TEXT_LEN: usize = 39;

/// An IP address.
#[derive(Clone, Copy, Debug, PartialEq, Eq, Hash)]
pub enum Address {
    /// An IPv4 address (RFC 791), its first octet the highest of the number.
    V4(u32),
    /// An IPv6 address (RFC 4291), its first group of 16 bits the highest of the number.
    V6(u128),
}

impl Address {
    /// Reads an address. IPv4 is four groups of one to three digits, each at most 255, separated
    /// by dots (RFC 1123, 2.1). Leading zeros are allowed, and the groups are decimal with them
    /// too. IPv6 is eight groups of one to four hexadecimal digits separated by colons; one `::`
    /// may stand for one or more groups of zero, and the last two groups may be written as IPv4
    /// (RFC 4291, 2.2). It does not allocate.
    pub fn from_text(text: &[u8]) -> Result<Self, AddressFault>
        ensures read { IfOk result (λ address. address_of text.now ≡ Some address) }
        ensures refused { IfErr result (λ fault.
            (fault ≡ AddressFault.BadAddress) × (address_of text.now ≡ None)) }
    {
        if let Some(number) = address4::read(text) {
            return Ok(Address::V4(number));
        }
        Ok(Address::V6(read_ipv6(text)?))
    }

    /// Appends the address's text, its groups without leading zeros, such as `192.0.2.1` and
    /// `2001:db8:0:0:0:0:0:1`: at most 39 octets, [`MAX_ADDRESS_TEXT_LEN`]. IPv6 has eight
    /// lower-case groups and never `::`. It succeeds where the capacity of `out` holds the text.
    /// An `Err` leaves `out` as it was.
    pub fn write(&self, out: &mut Vec<u8>) -> Result<(), AllocError>
        ensures ok { OnOk result (out.new.items ≡ out.old.items ++ text_of_address self.now) }
        ensures err { OnErr result (out.new.items ≡ out.old.items) }
        ensures capacity { vec_capacity out.old ≤ vec_capacity out.new }
        ensures succeeds { vec_len out.old + length (text_of_address self.now)
            ≤ vec_capacity out.old → IsOk result }
        ensures short { length (text_of_address self.now) ≤ 39 }
    {
        match self {
            Address::V4(number) => address4::write(*number, out),
            Address::V6(number) => address6::write(*number, out),
        }
    }
}

/// Reads an IPv4 address, as [`Address::from_text`] does, and no IPv6 address.
pub fn read_ipv4(text: &[u8]) -> Result<u32, AddressFault>
    ensures read { IfOk result (λ number. number_of_text text.now ≡ Some number) }
    ensures refused { IfErr result (λ fault.
        (fault ≡ AddressFault.BadAddress) × (number_of_text text.now ≡ None)) }
{
    address4::read(text).ok_or(AddressFault::BadAddress)
}

/// Reads an IPv6 address, as [`Address::from_text`] does, and no IPv4 address.
pub fn read_ipv6(text: &[u8]) -> Result<u128, AddressFault>
    ensures read { IfOk result (λ number. address6_of_text text.now ≡ Some number) }
    ensures refused { IfErr result (λ fault.
        (fault ≡ AddressFault.BadAddress) × (address6_of_text text.now ≡ None)) }
{
    address6::read(text).ok_or(AddressFault::BadAddress)
}
