// What the contract of `text_fits` amounts to, as contracts of functions.
ghost use Rattle.text_steps.specs.TextVerdicts.{DeterminedTextVerdict, TextVerdictsJudge};

use judging::theorems::verdicts_judge;
use lex::lex;

// Two answers of `text_fits`, each with the buffers that it leaves, that both meet its contract for the same input are equal.
pub fn text_verdicts_are_determined(text: &[u8], records: &[u8], events: &[u32])
    ensures { DeterminedTextVerdict text.now records.now events.now }
{}

// What an answer says by itself: without a refusal, whether the text is sound; and a yes comes without a refusal. The theorem about records speaks
// of such as lie in memory, so the text is lexed.
pub fn text_verdicts_judge(text: &[u8], records: &mut [u8], events: &[u32])
    ensures { TextVerdictsJudge text.now records.old events.now }
{
    let lexed = lex(text, records);
    let refusal = lexed.refusal;
    if refusal == 0 {
        let base = lexed.base;
        let size = 6 * lexed.records;
        verdicts_judge(&records[..size], base, events)
    }
}
