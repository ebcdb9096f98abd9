//! What follows from the definitions. Each law is the contract of a function that does nothing.

ghost use Rattle.std.specs.Prelude.{◌≡◌, ◌≢◌, ◌↔◌, ℕ, ◌+◌, ◌^◌, ◌<◌, ◌≤◌, List, Contains};
ghost use Rattle.std.specs.List.{IsDistinct};
ghost use Rattle.sipl_records.specs.declared.record.Record.{Record};
ghost use Rattle.sipl_records.specs.declared.record.Key.{Key};
ghost use Rattle.sipl_records.specs.Sets.{set_of, same_key};
ghost use Rattle.sipl_zonestore.specs.Changes.{changed_keys};
ghost use Rattle.sipl_zonestore.specs.Edits.{Edit};
ghost use Rattle.sipl_zonestore.specs.Numbers.{IsNumbered};
ghost use Rattle.sipl_zonestore.specs.Machine.{NumberedZones, numbered_from, after_accepted, after_edits, taken_keys};

/// A key is among the changed keys exactly where its set differs, and no key is there twice.
pub fn changed_keys_are_exact()
    ensures exact { (old new : List Record) (key : Key)
        → Contains (changed_keys old new) key ↔ (set_of old key ≢ set_of new key) }
    ensures once { (old new : List Record) → IsDistinct same_key (changed_keys old new) }
{}

/// No number is taken twice: the sets that an edit numbers take different numbers, none of which
/// was taken before it, and all of which were taken after it.
pub fn no_number_is_taken_twice()
    ensures different { (edit : Edit) (state : NumberedZones) (a b : Key)
        → Contains (taken_keys edit state) a → Contains (taken_keys edit state) b
        → (after_accepted edit state).numbers a ≡ (after_accepted edit state).numbers b → a ≡ b }
    ensures fresh { (edit : Edit) (state : NumberedZones) (key : Key)
        → Contains (taken_keys edit state) key
        → state.next ≤ (after_accepted edit state).numbers key }
    ensures taken { (edit : Edit) (state : NumberedZones) (key : Key)
        → Contains (taken_keys edit state) key
        → (after_accepted edit state).numbers key < (after_accepted edit state).next }
    ensures forward { (max_records : ℕ) (edits : List Edit) (state : NumberedZones)
        → state.next ≤ (after_edits max_records edits state).next }
{}

/// After any list of edits from an empty state, a number is 0 exactly where the set is empty, the
/// next number is above those of all record sets, and two record sets with one number, which is not
/// 0, have one key.
pub fn numbers_tell_sets()
    ensures { (max_records next : ℕ) (edits : List Edit) → 1 ≤ next → next ≤ 2 ^ 52 + 1
        → let state = after_edits max_records edits (numbered_from next)
        in IsNumbered state.zones.records state.numbers state.next }
{}

/// A set whose number stayed over any list of edits has not changed.
pub fn kept_numbers_tell_kept_sets()
    ensures { (max_records : ℕ) (edits : List Edit) (state : NumberedZones) (key : Key)
        → IsNumbered state.zones.records state.numbers state.next
        → let later = after_edits max_records edits state
        in later.numbers key ≡ state.numbers key
        → set_of later.zones.records key ≡ set_of state.zones.records key }
{}
