// Wire forms of labels, without the octet of the root (RFC 1035, 3.1).
ghost use Rattle.std.specs.Prelude.{◌≡◌, ◌+◌, ◌-◌, ◌^◌, ◌≤◌, [], ◌∷◌, ◌++◌, length, drop, map, min, None, Some, IfNone, IfSome, IfOk, IfErr, MatchResult};
ghost use Rattle.std.specs.List.{AllByRecursion};
ghost use Rattle.std.specs.Str.{str_to_ascii_lowercase};
ghost use Rattle.sipl_names.specs.Labels.{length_prefixed, wire_of, IsLabel, label_fault, first_label_fault};
ghost use Rattle.sipl_names.specs.LabelSlices.{octets_of};
ghost use Rattle.sipl_names.specs.Wire.{IsWire, labels_of_wire};
ghost use Rattle.smallvec.specs.SmallVec.{small_vec_len};

use crate::MAX_LABEL_LEN;
use crate::fault::InvalidName;
use smallvec::SmallVec;

// Octets of a wire form that is being made. Up to 64 of them take no memory beside the value.
pub(crate) type WireBuf = SmallVec<u8, 64>;

// The first label, and the wire form of the others; None where there is no label.
pub(crate) fn split_label(wire: &[u8]) -> Option<(&[u8], &[u8])>
    requires { IsWire wire.now }
    ensures none { IfNone result (wire.now ≡ []) }
    ensures first { IfSome result (λ parts. wire.now ≡ length_prefixed parts.0.now ++ parts.1.now) }
    ensures rest { IfSome result (λ parts. IsWire parts.1.now) }
    ensures labels { IfSome result
        (λ parts. labels_of_wire wire.now ≡ parts.0.now ∷ labels_of_wire parts.1.now) }
{
    let (len, rest) = wire.split_first()?;
    Some(rest.split_at(*len as usize))
}

// Whether the octets can be a label.
pub(crate) fn check_label(label: &[u8]) -> Result<(), InvalidName>
    ensures { MatchResult result
        (λ _. label_fault label.now ≡ None)
        (λ fault. label_fault label.now ≡ Some fault) }
{
    if label.is_empty() {
        return Err(InvalidName::EmptyLabel);
    }
    if label.len() > MAX_LABEL_LEN {
        return Err(InvalidName::LabelTooLong);
    }
    Ok(())
}

// How many octets the wire form of these labels has, or 2^64 - 1 where it has more; else the fault
// of the first that is not a label.
pub(crate) fn checked_wire_len(labels: &[&[u8]]) -> Result<usize, InvalidName>
    ensures faultless { IfOk result (λ _. first_label_fault (octets_of labels.now) ≡ None) }
    ensures len { IfOk result
        (λ len. len ≡ min (length (wire_of (octets_of labels.now))) (2 ^ 64 - 1)) }
    ensures fault { IfErr result
        (λ fault. first_label_fault (octets_of labels.now) ≡ Some fault) }
{
    let mut len = 0usize;
    for label in labels {
        check_label(label)?;
        len = len.saturating_add(label.len() + 1);
    }
    Ok(len)
}

// Appends the wire form of these labels, in lower case, for which space is reserved.
pub(crate) fn push_labels(wire: &mut WireBuf, labels: &[&[u8]])
    requires faultless { first_label_fault (octets_of labels.now) ≡ None }
    requires reserved { small_vec_len wire.old + length (wire_of (octets_of labels.now))
        ≤ wire.old.capacity }
    ensures wire { wire.new.items
        ≡ wire.old.items ++ wire_of (map str_to_ascii_lowercase (octets_of labels.now)) }
    ensures labels { AllByRecursion IsLabel (map str_to_ascii_lowercase (octets_of labels.now)) }
{
    for label in labels {
        push_label(wire, label);
    }
}

fn push_label(wire: &mut WireBuf, label: &[u8])
    requires faultless { label_fault label.now ≡ None }
    requires reserved { small_vec_len wire.old + length label.now + 1 ≤ wire.old.capacity }
    ensures wire { wire.new.items
        ≡ wire.old.items ++ length_prefixed (str_to_ascii_lowercase label.now) }
    ensures len { small_vec_len wire.new ≡ small_vec_len wire.old + length label.now + 1 }
    ensures capacity { wire.new.capacity ≡ wire.old.capacity }
    ensures label { IsLabel (str_to_ascii_lowercase label.now) }
{
    wire.push_reserved(label.len() as u8);
    for octet in label {
        wire.push_reserved(octet.to_ascii_lowercase());
    }
}
