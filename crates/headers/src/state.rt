// The index builder: what is known of the header that the walk over the events is in. It is lent to the walk and altered there.
ghost use Rattle.std.specs.Prelude.{◌≡◌};
ghost use Rattle.headers.specs.States.{fresh, opened_at, passed_by, state_after};

use crate::header::{closing, opens_header};
use event_kinds::{ARRAY_TABLE_OPEN, SIMPLE_KEY};

// A header that has not ended: the place of its open event, how many key parts it has so far, whether its key is still open, and whether it is an
// array table.
#[derive(Clone, Copy)]
pub struct OpenHeader {
    pub place: usize,
    pub parts: usize,
    pub counting: bool,
    pub array: bool,
}

// The number of the event that comes next, and the header that it is in, once one was met.
#[derive(Clone, Copy)]
pub struct IndexState {
    pub at: usize,
    pub header: Option<OpenHeader>,
}

// Before the first event.
pub fn begin() -> IndexState
    ensures { result ≡ fresh }
{
    IndexState {
        at: 0,
        header: None,
    }
}

// The header that an event of the kind opens, which has this number.
fn opened_at(at: usize, kind: u32) -> OpenHeader
    ensures { result ≡ opened_at at kind }
{
    OpenHeader {
        place: at,
        parts: 0,
        counting: true,
        array: kind == ARRAY_TABLE_OPEN,
    }
}

// The header behind an event of the kind, which opens none. Its key is open up to its close, and a simple_key of an open key is one part more. A
// count stops at the largest number.
fn passed_by(header: OpenHeader, kind: u32) -> OpenHeader
    ensures { result ≡ passed_by header kind }
{
    let parts = if header.counting && kind == SIMPLE_KEY {
        header.parts.saturating_add(1)
    } else {
        header.parts
    };
    OpenHeader {
        place: header.place,
        parts,
        counting: header.counting && kind != closing(header.array),
        array: header.array,
    }
}

// The lent state is altered: an event of the kind was met.
#[tactic(auto, unfolding(crate::specs::States::state_after))]
pub fn note(state: &mut IndexState, kind: u32)
    ensures { state.new ≡ state_after state.old kind }
{
    state.header = if opens_header(kind) {
        Some(opened_at(state.at, kind))
    } else {
        state.header.map(|header| passed_by(header, kind))
    };
    state.at = state.at.saturating_add(1);
}
