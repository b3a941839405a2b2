// What the check of a text amounts to, each theorem the contract of a function that does nothing.
ghost use Rattle.text_listing.specs.Checking.{CheckDetermined};
ghost use Rattle.std.specs.Prelude.{◌≡◌};
ghost use Rattle.text_listing.specs.Examples.{examples, told_by, as_listed};
ghost use Rattle.text_listing.specs.TextPromises.{Decides, Roomy};

// Two answers of `check_text`, each with the buffers that it leaves, that both meet its contract for the same input are equal.
pub fn checks_are_determined(
    text: &[u8],
    records: &[u8],
    events: &[u32],
    errors: &[u32],
    mistakes: &[u32],
)
    ensures { CheckDetermined text.now records.now events.now errors.now mistakes.now }
{}

// Without a refusal there is no mistake exactly when the text is sound; and with room for its records and for as many events there is neither
// refusal nor mistake exactly then.
pub fn checks_decide(text: &[u8], records: &[u8], events: &[u32], errors: &[u32], mistakes: &[u32])
    ensures { Decides text.now records.now events.now errors.now mistakes.now }
{}

// How large the buffers must be for a text of m bytes: with room for m + 1 records, for the most events and errors, and for 5 m + 6 mistakes no
// refusal for want of room comes.
pub fn check_room_is_enough(
    text: &[u8],
    records: &[u8],
    events: &[u32],
    errors: &[u32],
    mistakes: &[u32],
)
    ensures { Roomy text.now records.now events.now errors.now mistakes.now }
{}

// Fifteen texts, from their bytes: whether they are refused, and the words of their mistakes.
pub fn examples_are_listed()
    ensures { told_by examples ≡ as_listed examples }
{}
