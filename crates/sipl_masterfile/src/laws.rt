//! What follows from the definitions. Each law is the contract of a function that does nothing.

ghost use Rattle.std.specs.Prelude.{◌≡◌, ℕ, ◌+◌, true, false, not, List, [], ◌∷◌, ◌++◌, codes, count_by, filter, length, map, Option, Ok, ◌==◌};
ghost use Rattle.std.specs.List.{list_any};
ghost use Rattle.sipl_names.specs.Labels.{Octets, Labels, is_within};
ghost use Rattle.sipl_records.specs.Sets.{same_record};
ghost use Rattle.sipl_records.specs.Unique.{unique};
ghost use Rattle.sipl_records.specs.declared.record.Record.{Record};
ghost use Rattle.sipl_masterfile.specs.Entries.{Begun, entries_from, entries_of};
ghost use Rattle.sipl_masterfile.specs.JoinedTexts.{AllowsComment, follows_line, IsComplete, line_ends, further};
ghost use Rattle.sipl_masterfile.specs.RecordPrint.{IsRecord, record_fields, record_text, entry_of_record};
ghost use Rattle.sipl_masterfile.specs.RecordText.{record_of};
ghost use Rattle.sipl_masterfile.specs.StatedRecords.{records_in};
ghost use Rattle.sipl_masterfile.specs.Statements.{statement_of};
ghost use Rattle.sipl_masterfile.specs.Tokens.{Token, blank, line_end, may_end_field, needs_quotes, tokens};
ghost use Rattle.sipl_masterfile.specs.Zones.{Zone, zone_of};
ghost use Rattle.sipl_masterfile.specs.declared.statement.Statement.TheVariants as statement;

/// The records of an accepted text are those that its entries state whose owner is within the apex,
/// in their order, each once and at its first place. How many are stated with an owner outside the
/// apex is `outside`, and how many within are equal to an earlier one is `repeated`.
pub fn zones_have_the_records_stated()
    ensures records { (text : Octets) (apex : Labels) (zone : Zone) → zone_of text apex ≡ Ok zone
        → zone.records ≡ unique same_record
        (filter (λ r. is_within r.owner apex) (records_in text apex)) }
    ensures outside { (text : Octets) (apex : Labels) (zone : Zone) → zone_of text apex ≡ Ok zone
        → zone.outside ≡ count_by (λ r. not (is_within r.owner apex)) (records_in text apex) }
    ensures repeated { (text : Octets) (apex : Labels) (zone : Zone) → zone_of text apex ≡ Ok zone
        → length zone.records + zone.repeated
        ≡ length (filter (λ r. is_within r.owner apex) (records_in text apex)) }
{}

/// A field of octets that need no quotes is the same field within quotes, where a field may end
/// after it: before a blank, LF, `(`, `)`, `;`, `"` or the end of the text.
pub fn quotes_change_no_plain_field()
    ensures { (octet : ℕ) (octets after : Octets)
        → list_any needs_quotes (octet ∷ octets) ≡ false → may_end_field after ≡ true
        → tokens 0 (codes "\"" ++ octet ∷ octets ++ codes "\"" ++ after)
        ≡ tokens 0 (octet ∷ octets ++ after) }
{}

/// Within parentheses a line end is a blank, after which the next line has begun.
pub fn line_ends_within_parentheses_are_blanks()
    ensures { (begun : Begun) (depth line : ℕ) (following : List Token)
        → entries_from begun (depth + 1) line (line_end ∷ following)
        ≡ entries_from begun (depth + 1) (line + 1) (blank ∷ following) }
{}

/// A comment changes no entry: `;` and octets without LF, after a text that ends outside quotes and
/// comments, and before a line's end or the end of the text.
pub fn comments_change_nothing()
    ensures { (before comment after : Octets) → AllowsComment before
        → list_any (λ octet. octet == 10) comment ≡ false → follows_line after ≡ true
        → entries_of (before ++ codes ";" ++ comment ++ after) ≡ entries_of (before ++ after) }
{}

/// The entries of two texts joined, the first of which is complete, are those of the first, then
/// those of the second, with their lines counted on.
pub fn joining_texts_joins_entries()
    ensures { (first second : Octets) → IsComplete first → entries_of (first ++ second)
        ≡ entries_of first ++ map (further (line_ends first)) (entries_of second) }
{}

/// The text of a printed record reads back to that record, whatever the origin is. It is one entry,
/// whose fields state the record, whatever the owner before it is.
pub fn printing_records_reads_back()
    ensures text { (r : Record) (origin : Labels) → IsRecord r
        → record_of (record_text r) origin ≡ Ok r }
    ensures entry { (r : Record) → IsRecord r
        → entries_of (record_text r) ≡ entry_of_record r ∷ [] }
    ensures fields { (r : Record) (origin : Labels) (owner : Option Labels) → IsRecord r
        → statement_of false (record_fields r) origin owner ≡ Ok (statement.Record r) }
{}
