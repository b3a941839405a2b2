// Demand 3: the theorems between the rules and the token grammar, each the contract of a function that does nothing.
ghost use Rattle.std.specs.Prelude.{◌≡◌, ◌↔◌, [], ◌/◌, ◌≤◌, length};
ghost use Rattle.token.specs.Tokens.{all_tokens};
ghost use Rattle.token.specs.Check.{checked};
ghost use Rattle.rules.specs.Answer.{event_size};
ghost use Rattle.fitting.specs.Quiet.{QuietRun, NoMultiLineKey};
ghost use Rattle.rules.specs.declared.options.Options.{Options};
ghost use Rattle.rules.specs.Limits.{max_depth};
ghost use Rattle.fitting.specs.Grammar.{FitsWithin, Fits, FitsWideWithin, FitsWide};
ghost use Rattle.fitting.specs.Premises.{NestedWithin, Regular, Ready, document_run, text_end, events_left, EndToEnd, Nests, SameButForCuts};

// What a quiet run of the document entry without a multi-line key has read fits the token grammar. No room and no depth is supposed.
pub fn quiet_then_fits(s: &[u8], base: u32, events: &[u32], errors: &[u32])
    ensures { (options : Options)
        → Regular (all_tokens s.now base)
        → QuietRun (document_run options s.now base events.now errors.now)
        → NoMultiLineKey (document_run options s.now base events.now errors.now)
        → Fits (all_tokens s.now base) }
{}

// A run of the document entry is quiet and has no multi-line key exactly when the token list fits the token grammar with at most 64 arrays and
// inline tables open.
pub fn quiet_exactly_when_fits_within(s: &[u8], base: u32, events: &[u32], errors: &[u32])
    ensures { (options : Options)
        → Ready options s.now base events.now errors.now
        → ((QuietRun (document_run options s.now base events.now errors.now) × NoMultiLineKey (document_run options s.now base events.now errors.now)) ↔ FitsWithin max_depth (all_tokens s.now base)) }
{}

// Room for as many events as there are tokens is enough: a run over a list that fits within the depth is then quiet, without a multi-line key.
pub fn fits_then_quiet(s: &[u8], base: u32, events: &[u32], errors: &[u32])
    ensures { (options : Options)
        → checked s.now base ≡ Ok tt
        → Regular (all_tokens s.now base)
        → length (all_tokens s.now base) ≤ length events.now / event_size
        → FitsWithin max_depth (all_tokens s.now base)
        → (QuietRun (document_run options s.now base events.now errors.now) × NoMultiLineKey (document_run options s.now base events.now errors.now)) }
{}

// With the depth as a premise on the list: quiet without a multi-line key exactly when the list fits.
pub fn quiet_exactly_when_fits(s: &[u8], base: u32, events: &[u32], errors: &[u32])
    ensures { (options : Options)
        → Ready options s.now base events.now errors.now
        → NestedWithin max_depth (all_tokens s.now base)
        → ((QuietRun (document_run options s.now base events.now errors.now) × NoMultiLineKey (document_run options s.now base events.now errors.now)) ↔ Fits (all_tokens s.now base)) }
{}

// The four for quiet runs alone, with the wide grammar: there a key may be a multi-line string.
pub fn quiet_then_fits_wide(s: &[u8], base: u32, events: &[u32], errors: &[u32])
    ensures { (options : Options)
        → Regular (all_tokens s.now base)
        → QuietRun (document_run options s.now base events.now errors.now)
        → FitsWide (all_tokens s.now base) }
{}

pub fn quiet_exactly_when_fits_wide_within(s: &[u8], base: u32, events: &[u32], errors: &[u32])
    ensures { (options : Options)
        → Ready options s.now base events.now errors.now
        → (QuietRun (document_run options s.now base events.now errors.now) ↔ FitsWideWithin max_depth (all_tokens s.now base)) }
{}

pub fn fits_wide_then_quiet(s: &[u8], base: u32, events: &[u32], errors: &[u32])
    ensures { (options : Options)
        → checked s.now base ≡ Ok tt
        → Regular (all_tokens s.now base)
        → length (all_tokens s.now base) ≤ length events.now / event_size
        → FitsWideWithin max_depth (all_tokens s.now base)
        → QuietRun (document_run options s.now base events.now errors.now) }
{}

pub fn quiet_exactly_when_fits_wide(s: &[u8], base: u32, events: &[u32], errors: &[u32])
    ensures { (options : Options)
        → Ready options s.now base events.now errors.now
        → NestedWithin max_depth (all_tokens s.now base)
        → (QuietRun (document_run options s.now base events.now errors.now) ↔ FitsWide (all_tokens s.now base)) }
{}

// The events that a quiet run leaves in its buffer lie end to end, from the base to the end of the text.
pub fn quiet_events_end_to_end(s: &[u8], base: u32, events: &[u32], errors: &[u32])
    ensures { (options : Options)
        → Regular (all_tokens s.now base)
        → QuietRun (document_run options s.now base events.now errors.now)
        → EndToEnd base (events_left (document_run options s.now base events.now errors.now)) (text_end base (all_tokens s.now base)) }
{}

// Their brackets nest: none is open before the first event or after the last.
pub fn quiet_brackets_nest(s: &[u8], base: u32, events: &[u32], errors: &[u32])
    ensures { (options : Options)
        → Regular (all_tokens s.now base)
        → QuietRun (document_run options s.now base events.now errors.now)
        → Nests [] (events_left (document_run options s.now base events.now errors.now)) [] }
{}

// Two quiet runs from the same base that leave the same events, word for word, had the same tokens
// below each event, but for how an unquoted scalar was cut.
pub fn quiet_events_determine_tokens(
    s: &[u8],
    t: &[u8],
    base: u32,
    events: &[u32],
    errors: &[u32],
    other_events: &[u32],
    other_errors: &[u32],
)
    ensures { (options other : Options)
        → Regular (all_tokens s.now base)
        → Regular (all_tokens t.now base)
        → QuietRun (document_run options s.now base events.now errors.now)
        → QuietRun (document_run other t.now base other_events.now other_errors.now)
        → events_left (document_run options s.now base events.now errors.now) ≡ events_left (document_run other t.now base other_events.now other_errors.now)
        → SameButForCuts (events_left (document_run options s.now base events.now errors.now)) (all_tokens s.now base) (all_tokens t.now base) }
{}
