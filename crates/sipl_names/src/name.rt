ghost use Rattle.std.specs.Prelude.{◌≡◌, ◌≢◌, ◌↔◌, ◌+◌, ◌≤◌, [], ◌++◌, Some, true, false, length, IsTrue, IsOk, IfOk, IfErr, IfSome, OnOk, OnErr, vec_len, vec_capacity};
ghost use Rattle.std.specs.List.{list_all};
ghost use Rattle.std.specs.Option.{option_copied};
ghost use Rattle.std.specs.Cmp.{partial_equiv_from_equiv};
ghost use Rattle.std.specs.Cmp.Lexicographic.{lists_equiv, nat_list_eq_equiv};
ghost use Rattle.sipl_names.specs.Labels.{Labels, IsName, wire_length, same_name, is_within, parent_of, wildcard_beside, is_wildcard, prefixed_of, top_label_of};
ghost use Rattle.sipl_names.specs.Hostnames.{is_hostname_octet, hostname_of};
ghost use Rattle.sipl_names.specs.LabelSlices.{octets_of};
ghost use Rattle.sipl_names.specs.NameFault.{IfInvalid};
ghost use Rattle.sipl_names.specs.NamePrint.{text_of};
ghost use Rattle.sipl_names.specs.NameText.{name_of};
ghost use Rattle.sipl_names.specs.Wire.{hash_writes};
ghost use Rattle.std.proofs.Common.{ap};
ghost use lib.Pointwise.{pointwise_decides, bytes_decides};

use crate::MAX_NAME_LEN;
use crate::fault::{InvalidName, NameFault};
use crate::hostname::{has_alphabetic_top, has_hostname_octets, read_plain};
use crate::print::{reserve_text, write_text};
use crate::shared::SharedOctets;
use crate::text::read_labels;
use crate::wire::{WireBuf, checked_wire_len, push_labels, split_label};
use std::alloc::{AllocError, Global};
use std::hash::{Hash, Hasher};
use std::marker::Model;

/// A domain name: the list of its labels, the one next to the root last. A label has 1 to 63
/// octets, the wire form at most 255 (RFC 1035, 2.3.4). Letters A to Z are kept in lower case, and
/// so names are compared without case (RFC 4343, 3).
#[derive(Debug, Drop)]
pub struct Name {
    // The wire form, without the octet of the root: so the root does not allocate.
    wire: SharedOctets,
}

impl Model for Name {
    ghost use Rattle.sipl_names.specs.Labels.{Labels};
    ghost use Rattle.sipl_names.specs.Wire.{labels_of_wire, IsNameWire};

    ghost Value = { Labels };

    ghost view = { λ name. labels_of_wire name.wire };

    ghost invariant = { λ name. IsNameWire name.wire };
}

impl Name {
    /// The root, the name without labels. Does not allocate.
    pub fn root(_alloc: Global) -> Self
        ensures { result ≡ [] }
    {
        Name {
            wire: SharedOctets::none(),
        }
    }

    /// Parses a name's text in a master file (RFC 1035, 5.1). The text `@` is the origin, the text
    /// `.` the root. A backslash and three digits up to 255 denote that octet, a backslash and an
    /// octet that is not a digit denote that octet; a dot ends a label. A name that does not end
    /// with a dot is relative: the origin's labels follow.
    ///
    /// The error is the first in the text: an empty label (N1) or a label of more than 63 octets
    /// (N2), each found where the label ends, or a backslash that begins no escape (N4). A wire
    /// form of more than 255 octets (N3) is checked last.
    pub fn from_text(alloc: Global, text: &[u8], origin: &Name) -> Result<Self, NameFault>
        ensures read { IfOk result (λ name. name_of text.now origin.now ≡ Ok name) }
        ensures refused { IfErr result
            (λ fault. IfInvalid fault (λ invalid. name_of text.now origin.now ≡ Err invalid)) }
        ensures limits { IfOk result IsName }
    {
        if text == b"@".as_slice() {
            return Ok(origin.dup(alloc)?);
        }
        if text == b".".as_slice() {
            return Ok(Name::root(alloc));
        }
        let origin_len = if text.ends_with(b".") {
            0
        } else {
            origin.wire.as_slice().len()
        };
        let mut wire = WireBuf::with_capacity(alloc, text.len() + 1 + origin_len)?;
        let is_absolute = read_labels(&mut wire, text)?;
        if !is_absolute {
            wire.extend_from_slice(origin.wire.as_slice())?;
        }
        if wire.len() >= MAX_NAME_LEN {
            return Err(NameFault::Invalid(InvalidName::NameTooLong));
        }
        let wire = SharedOctets::from_slice(alloc, wire.as_slice())?;
        Ok(Name { wire })
    }

    /// Parses a hostname (RFC 3261, 25.1) as an absolute name. Its octets are letters, digits, `-`, `_`
    /// and dots, and its last label begins with a letter. `None` where the text is not a hostname.
    /// Allocates only where all its octets are such.
    pub fn from_hostname(alloc: Global, text: &[u8]) -> Result<Option<Self>, AllocError>
        ensures value { IfOk result (λ name. name ≡ hostname_of text.now) }
        ensures limits { IfOk result (λ name. IfSome name IsName) }
        ensures memory { OnErr result (list_all is_hostname_octet text.now ≡ true) }
    {
        let mut wire = [0; 64];
        let Some(len) = read_plain(&mut wire, text) else {
            return Name::from_any_hostname(alloc, text);
        };
        let wire = SharedOctets::from_slice(alloc, &wire[..len])?;
        Ok(Some(Name { wire }))
    }

    // Parses a hostname that may also be long or end with a dot.
    fn from_any_hostname(alloc: Global, text: &[u8]) -> Result<Option<Self>, AllocError>
        ensures value { IfOk result (λ name. name ≡ hostname_of text.now) }
        ensures limits { IfOk result (λ name. IfSome name IsName) }
        ensures memory { OnErr result (list_all is_hostname_octet text.now ≡ true) }
    {
        if !has_hostname_octets(text) {
            return Ok(None);
        }
        let root = Name::root(alloc);
        match Name::from_text(alloc, text, &root) {
            Ok(name) => Ok(has_alphabetic_top(&name).then_some(name)),
            Err(NameFault::Invalid(_)) => Ok(None),
            Err(NameFault::Memory) => Err(AllocError),
        }
    }

    /// The name with these labels prepended, in lower case. The fault of the first that is not a
    /// label (N1, N2) comes before that of a wire form of more than 255 octets (N3). Allocates only
    /// where there is no such fault.
    pub fn prefixed(&self, alloc: Global, labels: &[&[u8]]) -> Result<Self, NameFault>
        ensures made { IfOk result
            (λ name. prefixed_of (octets_of labels.now) self.now ≡ Ok name) }
        ensures refused { IfErr result
            (λ fault. IfInvalid fault
            (λ invalid. prefixed_of (octets_of labels.now) self.now ≡ Err invalid)) }
        ensures memory { result ≡ Err NameFault.Memory
            → IsOk (prefixed_of (octets_of labels.now) self.now) }
        ensures limits { IfOk result IsName }
    {
        let len = checked_wire_len(labels)?.saturating_add(self.wire.as_slice().len());
        if len >= MAX_NAME_LEN {
            return Err(NameFault::Invalid(InvalidName::NameTooLong));
        }
        let mut wire = WireBuf::with_capacity(alloc, len)?;
        push_labels(&mut wire, labels);
        wire.extend_from_slice(self.wire.as_slice())?;
        let wire = SharedOctets::from_slice(alloc, wire.as_slice())?;
        Ok(Name { wire })
    }

    /// Appends the name's text (RFC 1035, 5.1): each label followed by a dot, the root as a dot.
    /// Octets of 0x21 to 0x7E are printed as they are, `. \ " ; ( ) @ $` after a backslash, all
    /// others as a backslash and three digits. At most `MAX_NAME_TEXT_LEN` octets are appended.
    /// Allocates only where `out` lacks the capacity; an `Err` leaves `out` as it was.
    pub fn write(&self, out: &mut Vec<u8>) -> Result<(), AllocError>
        ensures ok { OnOk result (out.new.items ≡ out.old.items ++ text_of self.now) }
        ensures err { OnErr result (out.new.items ≡ out.old.items) }
        ensures capacity { vec_capacity out.old ≤ vec_capacity out.new }
        ensures succeeds { vec_len out.old + length (text_of self.now) ≤ vec_capacity out.old
            → IsOk result }
    {
        reserve_text(out, self.wire.as_slice())?;
        write_text(out, self.wire.as_slice());
        Ok(())
    }

    /// A copy of the name.
    pub fn dup(&self, _alloc: Global) -> Result<Self, AllocError>
        ensures value { IfOk result (λ copy. copy ≡ self.now) }
        ensures limits { IfOk result IsName }
    {
        Ok(Name {
            wire: self.wire.dup()?,
        })
    }

    /// How many octets the wire form has, with that of the root (RFC 1035, 3.1): 1 to 255.
    pub fn wire_len(&self) -> usize
        ensures value { result ≡ wire_length self.now }
        ensures limits { IsName self.now }
    {
        self.wire.as_slice().len() + 1
    }

    /// Whether the name is the root.
    pub fn is_root(&self) -> bool
        ensures { IsTrue result ↔ (self.now ≡ []) }
    {
        self.wire.as_slice().is_empty()
    }

    /// Whether the name is the apex or below it, label by label (RFC 1034, 3.1). Linear in the
    /// length of the name. Does not allocate.
    pub fn is_within(&self, apex: &Name) -> bool
        ensures value { result ≡ is_within self.now apex.now }
        ensures suffix { IsTrue result ↔ ((first : Labels) × (self.now ≡ first ++ apex.now)) }
    {
        let suffix = apex.wire.as_slice();
        let mut rest = self.wire.as_slice();
        while let Some((_, tail)) = split_label(rest) {
            if rest.len() <= suffix.len() {
                break;
            }
            rest = tail;
        }
        rest == suffix
    }

    /// The name without its first label; None for the root.
    pub fn parent(&self, alloc: Global) -> Result<Option<Name>, AllocError>
        ensures value { IfOk result (λ parent. parent ≡ parent_of self.now) }
        ensures limits { IfOk result (λ parent. IfSome parent IsName) }
        ensures memory { OnErr result (self.now ≢ []) }
    {
        if self.is_root() {
            return Ok(None);
        }
        let mut parent = self.dup(alloc)?;
        Ok(parent.pop_label().then_some(parent))
    }

    /// Drops the first label, so that the name is its parent (RFC 1034, 3.1). Returns false for the
    /// root, which stays. Does not allocate.
    pub fn pop_label(&mut self) -> bool
        ensures popped { IsTrue result → parent_of self.old ≡ Some self.new }
        ensures root { result ≡ false → (self.old ≡ []) × (self.new ≡ []) }
        ensures limits { IsName self.new }
    {
        let Some((label, _)) = split_label(self.wire.as_slice()) else {
            return false;
        };
        let prefixed_len = label.len() + 1;
        self.wire.drop_front(prefixed_len);
        true
    }

    /// The wildcard domain name next below the name's parent (RFC 4592, 2.1.1): its first label is
    /// an asterisk. The root is its own.
    pub fn wildcard_beside(&self, alloc: Global) -> Result<Name, AllocError>
        ensures value { IfOk result (λ wildcard. wildcard ≡ wildcard_beside self.now) }
        ensures limits { IfOk result IsName }
    {
        let Some((_, rest)) = split_label(self.wire.as_slice()) else {
            return Ok(Name::root(alloc));
        };
        let mut wire = WireBuf::with_capacity(alloc, rest.len() + 2)?;
        wire.extend_from_slice(b"\x01*")?;
        wire.extend_from_slice(rest)?;
        let wire = SharedOctets::from_slice(alloc, wire.as_slice())?;
        Ok(Name { wire })
    }

    /// Whether the name is a wildcard domain name: its first label is an asterisk (RFC 4592, 2.1.1).
    pub fn is_wildcard(&self) -> bool
        ensures { result ≡ is_wildcard self.now }
    {
        let Some((label, _)) = split_label(self.wire.as_slice()) else {
            return false;
        };
        label == b"*".as_slice()
    }

    /// The label next to the root, as `com`; None for the root.
    pub fn top_label(&self) -> Option<&[u8]>
        ensures { option_copied result ≡ top_label_of self.now }
    {
        let mut top = None;
        let mut rest = self.wire.as_slice();
        while let Some((label, tail)) = split_label(rest) {
            top = Some(label);
            rest = tail;
        }
        top
    }
}

impl PartialEq for Name {
    ghost eq = { same_name };

    ghost laws = { partial_equiv_from_equiv (lists_equiv nat_list_eq_equiv) };

    fn eq(&self, other: &Name) -> bool {
        self.wire.as_slice() == other.wire.as_slice()
    }
}

impl Eq for Name {
    ghost laws = { lists_equiv nat_list_eq_equiv };
}

impl Hash for Name {
    ghost hash_input = { hash_writes };

    ghost respects_eq = { λ x y same. ap hash_writes ((pointwise_decides bytes_decides x y).0 same) };

    fn hash<H: Hasher>(&self, state: &mut H) {
        state.write(self.wire.as_slice());
        state.write_u8(0);
    }
}
