// How large the buffers must be for a text of m bytes: theorems, each the contract of a function that does nothing.
ghost use Rattle.std.specs.Prelude.{◌≡◌, ◌+◌, ◌*◌, ◌/◌, ◌≤◌, length};
ghost use Rattle.rules.specs.Entries.{document_entry};
ghost use Rattle.rules.specs.declared.options.Options.{Options};
ghost use Rattle.rules.specs.Answer.{event_size, error_size};
ghost use Rattle.bounds.specs.Most.{most_events, most_errors};
ghost use Rattle.text_rules.specs.TextOutcome.{text_outcome};

// At most 3 m + 3 events and 2 m + 3 errors, whatever the room.
pub fn text_counts_are_bounded(text: &[u8], records: &[u8], events: &[u32], errors: &[u32])
    ensures { (options : Options) → ((text_outcome options text.now records.now events.now errors.now).answer.events ≤ 3 * length text.now + 3)
        × ((text_outcome options text.now records.now events.now errors.now).answer.errors ≤ 2 * length text.now + 3) }
{}

// More closely: those of a document of m + 1 records.
pub fn text_counts_are_at_most(text: &[u8], records: &[u8], events: &[u32], errors: &[u32])
    ensures { (options : Options) → ((text_outcome options text.now records.now events.now errors.now).answer.events ≤ most_events document_entry (length text.now + 1))
        × ((text_outcome options text.now records.now events.now errors.now).answer.errors ≤ most_errors document_entry (length text.now + 1)) }
{}

// With room for m + 1 records 11 does not come, with room for the most events 7 does not, and with room for the most errors 8 does not.
pub fn text_room_is_enough(text: &[u8], records: &[u8], events: &[u32], errors: &[u32])
    ensures { (options : Options) → (length text.now + 1 ≤ length records.now / 6 → (text_outcome options text.now records.now events.now errors.now).answer.refusal ≡ 11 → ⊥)
        × (most_events document_entry (length text.now + 1) ≤ length events.now / event_size → (text_outcome options text.now records.now events.now errors.now).answer.refusal ≡ 7 → ⊥)
        × (most_errors document_entry (length text.now + 1) ≤ length errors.now / error_size → (text_outcome options text.now records.now events.now errors.now).answer.refusal ≡ 8 → ⊥) }
{}
