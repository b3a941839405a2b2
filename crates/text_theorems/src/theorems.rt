// Demand 3 said of a text: theorems, each the contract of a function. The theorems about token lists speak of records that lie in memory, so the
// function lexes the text into the record buffer and cites them of what stands there.
ghost use Rattle.std.specs.Prelude.{◌≡◌, ◌↔◌, [], length};
ghost use Rattle.rules.specs.declared.options.Options.{Options};
ghost use Rattle.rules.specs.Limits.{max_depth};
ghost use Rattle.fitting.specs.Quiet.{QuietRun, NoMultiLineKey};
ghost use Rattle.fitting.specs.Grammar.{FitsWithin, Fits};
ghost use Rattle.fitting.specs.Premises.{NestedWithin, events_left, EndToEnd, Nests, SameButForCuts};
ghost use Rattle.scan.specs.Lexer.{tokens_of};
ghost use Rattle.text_rules.specs.TextOutcome.{text_outcome, text_run};
ghost use Rattle.text_rules.specs.TextPremises.{TextReady};

use fitting_theorems::theorems::{
    quiet_brackets_nest, quiet_events_determine_tokens, quiet_events_end_to_end,
    quiet_exactly_when_fits, quiet_exactly_when_fits_within, quiet_then_fits,
};
use lex::lex;

// If the run over a text is quiet and has no multi-line key, its tokens fit the token grammar. Nothing is supposed but the run.
pub fn quiet_text_fits(text: &[u8], records: &mut [u8], events: &[u32], errors: &[u32])
    ensures { (options : Options)
        → QuietRun (text_run options text.now records.old events.now errors.now)
        → NoMultiLineKey (text_run options text.now records.old events.now errors.now)
        → Fits (tokens_of text.now) }
{
    let lexed = lex(text, records);
    let refusal = lexed.refusal;
    if refusal == 0 {
        let base = lexed.base;
        let size = 6 * lexed.records;
        quiet_then_fits(&records[..size], base, events, errors)
    }
}

// Within the limits and with room the run is quiet and has no multi-line key exactly when the text's tokens fit the grammar with at most 64 arrays
// and inline tables open.
pub fn text_quiet_exactly_when_fits_within(
    text: &[u8],
    records: &mut [u8],
    events: &[u32],
    errors: &[u32],
)
    ensures { (options : Options)
        → TextReady options text.now records.old events.now errors.now
        → ((QuietRun (text_run options text.now records.old events.now errors.now) × NoMultiLineKey (text_run options text.now records.old events.now errors.now)) ↔ FitsWithin max_depth (tokens_of text.now)) }
{
    let lexed = lex(text, records);
    let refusal = lexed.refusal;
    if refusal == 0 {
        let base = lexed.base;
        let size = 6 * lexed.records;
        quiet_exactly_when_fits_within(&records[..size], base, events, errors)
    }
}

// The same with the depth as a premise on the tokens: quiet without a multi-line key exactly when they fit.
pub fn text_quiet_exactly_when_fits(text: &[u8], records: &mut [u8], events: &[u32], errors: &[u32])
    ensures { (options : Options)
        → TextReady options text.now records.old events.now errors.now
        → NestedWithin max_depth (tokens_of text.now)
        → ((QuietRun (text_run options text.now records.old events.now errors.now) × NoMultiLineKey (text_run options text.now records.old events.now errors.now)) ↔ Fits (tokens_of text.now)) }
{
    let lexed = lex(text, records);
    let refusal = lexed.refusal;
    if refusal == 0 {
        let base = lexed.base;
        let size = 6 * lexed.records;
        quiet_exactly_when_fits(&records[..size], base, events, errors)
    }
}

// The events that a quiet run over a text leaves lie end to end, from the base that is answered to the end of the text.
pub fn text_events_end_to_end(text: &[u8], records: &mut [u8], events: &[u32], errors: &[u32])
    ensures { (options : Options)
        → QuietRun (text_run options text.now records.old events.now errors.now)
        → EndToEnd (text_outcome options text.now records.old events.now errors.now).answer.base
        (events_left (text_run options text.now records.old events.now errors.now))
        (length text.now) }
{
    let lexed = lex(text, records);
    let refusal = lexed.refusal;
    if refusal == 0 {
        let base = lexed.base;
        let size = 6 * lexed.records;
        quiet_events_end_to_end(&records[..size], base, events, errors)
    }
}

// Their brackets nest: none is open before the first event or after the last.
pub fn text_brackets_nest(text: &[u8], records: &mut [u8], events: &[u32], errors: &[u32])
    ensures { (options : Options)
        → QuietRun (text_run options text.now records.old events.now errors.now)
        → Nests [] (events_left (text_run options text.now records.old events.now errors.now)) [] }
{
    let lexed = lex(text, records);
    let refusal = lexed.refusal;
    if refusal == 0 {
        let base = lexed.base;
        let size = 6 * lexed.records;
        quiet_brackets_nest(&records[..size], base, events, errors)
    }
}

// Two texts whose runs are quiet, answer the same base and leave the same events, word for word, have the same tokens below each event, but for
// how an unquoted scalar was cut.
pub fn text_events_determine_tokens(
    text: &[u8],
    records: &mut [u8],
    events: &[u32],
    errors: &[u32],
    other_text: &[u8],
    other_records: &mut [u8],
    other_events: &[u32],
    other_errors: &[u32],
)
    ensures { (options other : Options)
        → QuietRun (text_run options text.now records.old events.now errors.now)
        → QuietRun (text_run other other_text.now other_records.old other_events.now other_errors.now)
        → (text_outcome options text.now records.old events.now errors.now).answer.base
        ≡ (text_outcome other other_text.now other_records.old other_events.now other_errors.now).answer.base
        → events_left (text_run options text.now records.old events.now errors.now)
        ≡ events_left (text_run other other_text.now other_records.old other_events.now other_errors.now)
        → SameButForCuts (events_left (text_run options text.now records.old events.now errors.now)) (tokens_of text.now) (tokens_of other_text.now) }
{
    let lexed = lex(text, records);
    let refusal = lexed.refusal;
    if refusal == 0 {
        let other_lexed = lex(other_text, other_records);
        let other_refusal = other_lexed.refusal;
        if other_refusal == 0 {
            let base = lexed.base;
            let size = 6 * lexed.records;
            let other_size = 6 * other_lexed.records;
            quiet_events_determine_tokens(
                &records[..size],
                &other_records[..other_size],
                base,
                events,
                errors,
                other_events,
                other_errors,
            )
        }
    }
}
