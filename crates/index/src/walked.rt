// The walk over the finished events: a header is written when the next one opens, or at the end.
ghost use Rattle.std.specs.Prelude.{◌≡◌, true, ◌++◌, ◌*◌, ◌/◌, length, drop};
ghost use Rattle.rules.specs.Answer.{event_size};
ghost use Rattle.headers.specs.Headers.{entry_size, kinds_from, headers_in, index_bytes};
ghost use Rattle.headers.specs.States.{state_behind, Finishable, Finished, Walkable};

use headers::header::{Header, kind_at, opens_header};
use headers::state::{IndexState, note};
use index_entries::entry::{ENTRY_SIZE, put_entry};
use rules::answer::EVENT_WORDS;

// The header that the state is in, if it is in one, ends and is written as entry k. Answers how many entries there are then.
fn finish(index: &mut [u8], k: usize, state: IndexState) -> usize
    requires { Finishable true state k index.old }
    ensures { Finished true state k index.old index.new result }
{
    let Some(header) = state.header else {
        return k;
    };
    put_entry(
        index,
        ENTRY_SIZE * k,
        Header {
            place: header.place,
            parts: header.parts,
            array: header.array,
            events: state.at - header.place,
        },
    );
    k + 1
}

// The builder is lent to the walk, and altered there with each of the events.
pub(crate) fn walk(state: &mut IndexState, events: &[u32], index: &mut [u8])
    requires { Walkable state.old events.now index.old }
    ensures behind { state.new ≡ state_behind state.old (kinds_from (length events.now / event_size) 0 events.now) }
    ensures written { index.new ≡ index_bytes (headers_in (length events.now / event_size) events.now) ++ drop (entry_size * length (headers_in (length events.now / event_size) events.now)) index.old }
{
    let mut k = 0;
    for i in 0..events.len() / EVENT_WORDS {
        let kind = kind_at(events, i);
        if opens_header(kind) {
            k = finish(index, k, *state);
        }
        note(state, kind);
    }
    finish(index, k, *state);
}
