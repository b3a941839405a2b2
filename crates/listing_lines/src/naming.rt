// The names of the events, written to standard output.
ghost use Rattle.listing_lines.specs.Numbers.{Named};

use std::io;

// The names of the event kinds 1 to 17.
const NAMES: [&str; 17] = [
    "std_table_open",
    "std_table_close",
    "array_table_open",
    "array_table_close",
    "simple_key",
    "key_sep",
    "key_val_sep",
    "scalar",
    "value_sep",
    "array_open",
    "array_close",
    "inline_table_open",
    "inline_table_close",
    "whitespace",
    "comment",
    "newline",
    "error",
];

// The name of the event kind k. Answers whether the writing went well.
pub fn print_name(rt: &impl Print, k: u32) -> io::Result<()>
    requires { Named k }
{
    rt.print(NAMES[k as usize - 1])
}
