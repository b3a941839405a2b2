// How large the buffers must be, each theorem the contract of a function that does nothing.
ghost use Rattle.std.specs.Prelude.{◌≡◌, ◌+◌, ◌*◌, ◌/◌, ◌≤◌, length};
ghost use Rattle.token.specs.Limits.{max_records};
ghost use Rattle.token.specs.Records.{count};
ghost use Rattle.token.specs.Writing.{records_of};
ghost use Rattle.rules.specs.declared.options.Options.{Options};
ghost use Rattle.rules.specs.Entries.{Entry};
ghost use Rattle.rules.specs.Answer.{event_size, error_size, outcome};
ghost use Rattle.bounds.specs.Most.{most_events, most_errors};
ghost use Rattle.bounds.specs.Families.{eventful, errorful};

// A list of n records has at most 3 n events and 2 n + 1 errors, at any entry, in either mode and whatever the room: the counts are those of the full lists.
pub fn counts_are_bounded(s: &[u8], base: u32, events: &[u32], errors: &[u32])
    ensures { (options : Options) (entry : Entry)
        → ((outcome options entry s.now base events.now errors.now).answer.events ≤ 3 * count s.now)
        × ((outcome options entry s.now base events.now errors.now).answer.errors ≤ 2 * count s.now + 1) }
{}

// More closely, by the entry.
pub fn counts_are_at_most(s: &[u8], base: u32, events: &[u32], errors: &[u32])
    ensures { (options : Options) (entry : Entry)
        → ((outcome options entry s.now base events.now errors.now).answer.events ≤ most_events entry (count s.now))
        × ((outcome options entry s.now base events.now errors.now).answer.errors ≤ most_errors entry (count s.now)) }
{}

// No bound is less: at every entry, for every n within the limit, the records of a list of n tokens give as many events, and those of one as many errors.
pub fn most_is_attained(n: u32, events: &[u32], errors: &[u32])
    ensures { (options : Options) (entry : Entry) → n ≤ max_records
        → ((count (records_of (eventful entry n)) ≡ n)
        × ((outcome options entry (records_of (eventful entry n)) 0 events.now errors.now).answer.events ≡ most_events entry n))
        × ((count (records_of (errorful entry n)) ≡ n)
        × ((outcome options entry (records_of (errorful entry n)) 0 events.now errors.now).answer.errors ≡ most_errors entry n)) }
{}

// With room for the most events refusal 7 does not come, and with room for the most errors 8 does not.
pub fn room_is_enough(s: &[u8], base: u32, events: &[u32], errors: &[u32])
    ensures { (options : Options) (entry : Entry)
        → (most_events entry (count s.now) ≤ length events.now / event_size → (outcome options entry s.now base events.now errors.now).answer.refusal ≡ 7 → ⊥)
        × (most_errors entry (count s.now) ≤ length errors.now / error_size → (outcome options entry s.now base events.now errors.now).answer.refusal ≡ 8 → ⊥) }
{}
