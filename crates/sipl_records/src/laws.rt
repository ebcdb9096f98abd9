//! What follows from the definitions. Each law is the contract of a function that does nothing.

ghost use Rattle.std.specs.Prelude.{◌≡◌, ◌↔◌, ◌==◌, nat_lt, ℕ, ◌<◌, ◌≤◌, Bool, true, false, ◌||◌, List, [], ◌∷◌, ◌++◌, Some, IsTrue, length, count_by, map, filter, find, All, AllPairs, Contains, if◌then◌else◌};
ghost use Rattle.std.specs.Bool.{Decides};
ghost use Rattle.std.specs.Cmp.{IsEquivalence};
ghost use Rattle.std.specs.List.{Any, IsDistinct, list_any, position_or_len, slice_split};
ghost use Rattle.sipl_names.specs.Labels.{Labels};
ghost use Rattle.sipl_records.specs.declared.data.Data.{Data};
ghost use Rattle.sipl_records.specs.declared.record.Record.{Record};
ghost use Rattle.sipl_records.specs.declared.record.Key.{Key};
ghost use Rattle.sipl_records.specs.declared.address.Address.{Address};
ghost use Rattle.sipl_records.specs.declared.address.TheConstants.{MAX_ADDRESS_TEXT_LEN};
ghost use Rattle.sipl_records.specs.Addresses.{address_of, text_of_address, IsAddress};
ghost use Rattle.sipl_records.specs.Ipv6.{address6_of_text};
ghost use Rattle.sipl_records.specs.Ipv6Grammar.{IsAddress6Text};
ghost use Rattle.sipl_records.specs.Sets.{conflicts, data_of, exists_in, existence_of, has_key, is_existence, key_of, same_data, same_record, set_of, shares_set};
ghost use Rattle.sipl_records.specs.Unique.{unique};
ghost use Rattle.sipl_records.specs.Parts.{parts};
ghost use Rattle.sipl_records.specs.Fields.{fields_of, is_wsp};

use crate::address::Address;
use crate::data::Data;
use crate::record::{Key, Record};

/// `unique` keeps each value of a list once: every value is the same as one that is kept, no two
/// that are kept are the same, each is the first in the list of those that are the same, and they
/// are in the order of these first places.
pub fn unique_keeps_first_values<T>()
    ensures every { (same : T → T → Bool) → IsEquivalence same → (xs : List T) (x : T)
        → list_any (λ y. same y x) (unique same xs) ≡ list_any (λ y. same y x) xs }
    ensures once { (same : T → T → Bool) (xs : List T) → IsDistinct same (unique same xs) }
    ensures first { (same : T → T → Bool) → IsEquivalence same → (xs : List T)
        → All (λ x. find (same x) xs ≡ Some x) (unique same xs) }
    ensures ordered { (same : T → T → Bool) → IsEquivalence same → (xs : List T)
        → AllPairs (λ x y. position_or_len (same x) xs < position_or_len (same y) xs)
        (unique same xs) }
{}

/// Where only equal values are the same, `unique` keeps exactly the values of the list.
pub fn unique_keeps_every_value<T>()
    ensures { (same : T → T → Bool) → ((x y : T) → Decides (same x y) (x ≡ y)) → (xs : List T)
        (x : T) → Contains (unique same xs) x ↔ Contains xs x }
{}

/// A further value is kept after the others where none of them is the same.
pub fn unique_appends_new_values<T>()
    ensures { (same : T → T → Bool) → IsEquivalence same → (xs : List T) (x : T)
        → unique same (xs ++ x ∷ []) ≡ (if list_any (λ y. same y x) (unique same xs)
        then unique same xs else unique same xs ++ x ∷ []) }
{}

/// `==` of data, records, keys and addresses is true exactly where the two are equal; of data and
/// records it is as defined.
pub fn equality_is_exact()
    ensures data_eq { (a b : Data) → ⟦<Data as PartialEq>⟧.eq a b ≡ same_data a b }
    ensures record_eq { (a b : Record) → ⟦<Record as PartialEq>⟧.eq a b ≡ same_record a b }
    ensures same_data { (a b : Data) → IsTrue (same_data a b) ↔ (a ≡ b) }
    ensures same_record { (a b : Record) → IsTrue (same_record a b) ↔ (a ≡ b) }
    ensures key_eq { (a b : Key) → IsTrue (⟦<Key as PartialEq>⟧.eq a b) ↔ (a ≡ b) }
    ensures address_eq { (a b : Address) → IsTrue (⟦<Address as PartialEq>⟧.eq a b) ↔ (a ≡ b) }
{}

/// Whether two records conflict does not depend on their order.
pub fn conflicts_are_mutual()
    ensures { (a b : Record) → conflicts a b ≡ conflicts b a }
{}

/// A record is in a key's set exactly where the key is its own: that of its owner and kind.
pub fn record_has_its_own_key_only()
    ensures { (r : Record) (key : Key) → IsTrue (has_key key r) ↔ (key_of r ≡ Some key) }
{}

/// Two records share a set exactly where they have one key. A record without a key shares none.
pub fn records_of_one_set_have_one_key()
    ensures { (a b : Record) → IsTrue (shares_set a b)
        ↔ ((key : Key) × (key_of a ≡ Some key) × (key_of b ≡ Some key)) }
{}

/// A set has as many data as records of the list have its key; a set of existence has one datum, or
/// none.
pub fn set_length_counts_records()
    ensures records { (records : List Record) (key : Key) → is_existence key ≡ false
        → length (set_of records key) ≡ count_by (has_key key) records }
    ensures existence { (records : List Record) (key : Key) → is_existence key ≡ true
        → length (set_of records key) ≤ 1 }
{}

/// A record set is the data of the records that have its key, in the order of the records.
pub fn set_of_is_a_filter()
    ensures { (records : List Record) (key : Key) → is_existence key ≡ false
        → set_of records key ≡ map (λ r. r.value) (filter (has_key key) records) }
{}

/// A set of two lists of records joined is its set of the first, then its set of the second; a name
/// exists where it exists in one of the two.
pub fn set_of_append()
    ensures records { (a b : List Record) (key : Key) → is_existence key ≡ false
        → set_of (a ++ b) key ≡ set_of a key ++ set_of b key }
    ensures existence { (a b : List Record) (name : Labels)
        → exists_in (a ++ b) name ≡ (exists_in a name || exists_in b name) }
{}

/// Of a filtered list, a set (the existence of a name aside) whose records are all kept is unchanged,
/// and one whose records are all left out is empty. A filter by owners does one or the other with
/// each.
pub fn set_of_filter()
    ensures kept { (p : Record → Bool) (key : Key) → is_existence key ≡ false
        → ((r : Record) → has_key key r ≡ true → p r ≡ true)
        → (records : List Record) → set_of (filter p records) key ≡ set_of records key }
    ensures dropped { (p : Record → Bool) (key : Key) → is_existence key ≡ false
        → ((r : Record) → has_key key r ≡ true → p r ≡ false)
        → (records : List Record) → set_of (filter p records) key ≡ [] }
    ensures by_owner { (p : Labels → Bool) (records : List Record) (key : Key)
        → is_existence key ≡ false
        → set_of (filter (λ r. p r.owner) records) key
        ≡ (if p key.name then set_of records key else []) }
{}

/// A name exists exactly where it is the owner of a record, or a name above one (RFC 4592, 2.2.3); so
/// a name above one that exists does too.
pub fn names_exist_at_and_above_owners()
    ensures owners { (records : List Record) (name : Labels) → IsTrue (exists_in records name)
        ↔ Any (λ r. (first : Labels) × (r.owner ≡ first ++ name)) records }
    ensures above { (records : List Record) (first name : Labels)
        → IsTrue (exists_in records (first ++ name)) → IsTrue (exists_in records name) }
    ensures set { (records : List Record) (key : Key) → is_existence key ≡ true
        → set_of records key ≡ existence_of (exists_in records key.name) }
{}

/// A printed address reads back to itself.
pub fn printing_addresses_reads_back()
    ensures { (address : Address) → IsAddress address
        → address_of (text_of_address address) ≡ Some address }
{}

/// A text is read as an IPv6 address exactly where the grammar (RFC 4291, 2.2) relates the two.
pub fn ipv6_texts_follow_the_grammar()
    ensures { (text : List ℕ) (number : ℕ) →
        (address6_of_text text ≡ Some number) ↔ IsAddress6Text text number }
{}

/// The text of an address has at most 39 octets.
pub fn address_text_has_at_most_39_octets()
    ensures short { (address : Address) → IsAddress address
        → length (text_of_address address) ≤ 39 }
    ensures constant { MAX_ADDRESS_TEXT_LEN ≡ 39 }
{}

/// The parts of a text are what std's `split` at the separator yields.
pub fn parts_are_the_slices_between_separators()
    ensures { (separator : ℕ) (text : List ℕ)
        → parts separator text ≡ slice_split (λ octet. octet == separator) text }
{}

/// The fields of a line are its parts between white space, without the empty ones.
pub fn fields_are_the_parts_that_have_an_octet()
    ensures { (line : List ℕ) → fields_of line
        ≡ filter (λ part. nat_lt 0 (length part)) (slice_split is_wsp line) }
{}
