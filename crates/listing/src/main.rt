// The listing program: reads token records from standard input and prints what the document entry gives for them at base 0, an
// event or an error a line. More than 3,072 bytes print `input too long`, a refusal prints `refused N place P`. Input that cannot be read to
// its end is a line on standard error, and standard output stays empty.
#![tactic(auto)]

ghost use Rattle.std.specs.Prelude.{◌≤◌, length};

use entries::entries::parse_document;
use listing_lines::printing::print_outcome;
use rules::answer::{ERROR_WORDS, EVENT_WORDS};
use rules::options::{Mode, Options};
use std::io;
use std::io::Read;

// The most bytes that are listed: 512 records.
const MOST: usize = 3072;

// Room for 1,600 events and for 512 errors. So many records have at most 1,533 events, so these always fit; the errors may not.
const EVENT_ROOM: usize = 1600 * EVENT_WORDS;

const ERROR_ROOM: usize = 512 * ERROR_WORDS;

// Lists the records s.
#[tactic(auto, using(listing_lines::proofs::RoomLaws::printable))]
fn list(rt: &impl Print, s: &[u8]) -> io::Result<()>
    requires { length s.now ≤ 3072 }
{
    let mut events = [0; EVENT_ROOM];
    let mut errors = [0; ERROR_ROOM];
    let options = Options { mode: Mode::Crate };
    let answer = parse_document(s, 0, options, &mut events, &mut errors);
    print_outcome(rt, answer, &events, &errors)
}

// Reads until `buffer` is full, the input ends or a read fails, and answers how many bytes came.
fn read_full(input: &mut impl Read, buffer: &mut [u8]) -> usize
    ensures { result ≤ length buffer.new }
{
    let mut done = 0;
    while done < buffer.len() {
        match input.read(&mut buffer[done..]) {
            Ok(0) | Err(_) => return done,
            Ok(n) => done += n,
        }
    }
    done
}

// Whether the input has come to its end. `read_full` stops there, and where a read fails: only one more read, which gives nothing and does not
// fail, tells that all of the input was read.
fn at_end(input: &mut impl Read) -> bool {
    let mut beyond = [0u8; 1];
    match input.read(&mut beyond) {
        Ok(n) => n == 0,
        Err(_) => false,
    }
}

// The input is an array and no Vec, so that no input is refused for want of memory. One byte more than the most is asked for, so that longer input
// shows.
fn main(rt: HostRuntime) -> io::Result<()> {
    let mut stdin = rt.stdin();
    let mut input = [0u8; 3073];
    let n = read_full(&mut stdin, &mut input);
    if n > MOST {
        return println!(rt; "input too long");
    }
    if at_end(&mut stdin) {
        return list(&rt, &input[..n]);
    }
    eprintln!(rt; "listing: standard input cannot be read")
}
