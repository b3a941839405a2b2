// Answers of the index of headers as C structures: what writing it gives, and what reading it finds.
ghost use Rattle.std.specs.Prelude.{◌≡◌};
ghost use Rattle.export_answers.specs.Exported.{plain};
ghost use Rattle.export_indexes.specs.ExportedIndexes.{plain_indexed, header_structure, ExportedIndexesDetermined};

use export_answers::answer::ExportedAnswer;
use index::Indexed;
use index::theorems::indexes_are_determined;
use index_entries::reading::HeaderAt;
use rules::answer::Answer;

// The refusal's number (0 if none), how many headers there are, and how many bytes their index has, or would have.
#[repr(C)]
#[derive(Clone, Copy)]
pub struct ExportedIndexed {
    pub refusal: u32,
    pub headers: usize,
    pub bytes: usize,
}

// 0 at the end of the bytes, 1 at an entry, 2 where there is none; of an entry 1 for an array table, the place of the open event, key parts,
// events, and the position behind it, else zeros.
#[repr(C)]
#[derive(Clone, Copy)]
pub struct ExportedHeader {
    pub found: u32,
    pub array: u32,
    pub place: usize,
    pub parts: usize,
    pub events: usize,
    pub next: usize,
}

// The C structure of the index's answer.
impl From<Indexed> for ExportedIndexed {
    ghost from_gives = { λ r e. plain_indexed e ≡ r };

    fn from(r: Indexed) -> ExportedIndexed {
        ExportedIndexed {
            refusal: r.refusal,
            headers: r.headers,
            bytes: r.bytes,
        }
    }
}

// One without an entry.
fn no_header(found: u32) -> ExportedHeader
    ensures { result ≡ record { found = found; array = 0; place = 0; parts = 0; events = 0; next = 0 } }
{
    ExportedHeader {
        found,
        array: 0,
        place: 0,
        parts: 0,
        events: 0,
        next: 0,
    }
}

// The C structure of what stands at a position.
impl From<HeaderAt> for ExportedHeader {
    ghost from_gives = { λ h e. e ≡ header_structure h };

    fn from(h: HeaderAt) -> ExportedHeader {
        match h {
            HeaderAt::Entry(header, next) => ExportedHeader {
                found: 1,
                array: u32::from(header.array),
                place: header.place,
                parts: header.parts,
                events: header.events,
                next,
            },
            HeaderAt::End => no_header(0),
            HeaderAt::NoEntry => no_header(2),
        }
    }
}

// Two C structures, the first sort each with the index buffer that it leaves, that both meet the contract of one of the
// functions of the index for the same input are equal.
pub fn exported_indexes_are_determined(
    answer: ExportedAnswer,
    events: &[u32],
    index: &[u8],
    at: usize,
)
    ensures { ExportedIndexesDetermined (plain answer) events.now index.now at }
{
    indexes_are_determined(Answer::from(answer), events, index)
}
