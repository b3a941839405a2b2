// The index of headers for programs in C and Rust: written from a quiet run's events, and read again.
ghost use Rattle.export_answers.specs.Exported.{plain};
ghost use Rattle.export_indexes.specs.ExportedIndexes.{ExportsIndex, ExportsHeader};

use export_answers::answer::ExportedAnswer;
use export_indexes::indexes::{ExportedHeader, ExportedIndexed};
use index::index as index_of;
use index_entries::reading::header_at;
use rules::answer::Answer;

#[unsafe(no_mangle)]
pub extern "C" fn deckmarten_index(
    answer: ExportedAnswer,
    events: &[u32],
    index: &mut [u8],
) -> ExportedIndexed
    ensures { ExportsIndex (plain answer) events.now index.old index.new result }
{
    ExportedIndexed::from(index_of(Answer::from(answer), events, index))
}

#[unsafe(no_mangle)]
pub extern "C" fn deckmarten_header_at(index: &[u8], at: usize) -> ExportedHeader
    ensures { ExportsHeader index.now at result }
{
    ExportedHeader::from(header_at(index, at))
}
