//! Laws of names and of their texts.
ghost use Rattle.std.specs.Prelude.{◌≡◌, ◌≤◌, Ok, length};
ghost use Rattle.sipl_names.specs.Labels.{Labels, IsName};
ghost use Rattle.sipl_names.specs.NameText.{name_of};
ghost use Rattle.sipl_names.specs.NamePrint.{text_of};

use crate::MAX_NAME_TEXT_LEN;

/// The text of a name reads back as that name, whatever the origin is.
pub fn printing_reads_back()
    ensures { (labels origin : Labels)
        → IsName labels → name_of (text_of labels) origin ≡ Ok labels }
{}

/// The text of a name has at most `MAX_NAME_TEXT_LEN` octets.
pub fn text_has_at_most_1004_octets()
    ensures bound { (labels : Labels) → IsName labels → length (text_of labels) ≤ 1004 }
    ensures constant { MAX_NAME_TEXT_LEN ≡ 1004 }
{}

/// A name has at most 127 labels.
pub fn names_have_at_most_127_labels()
    ensures { (labels : Labels) → IsName labels → length labels ≤ 127 }
{}
