// The record writer: length and kind of a record, as docs/LAYOUT.md has them.
#![tactic(auto)]

ghost use Rattle.std.specs.Prelude.{◌≡◌, ◌+◌, ◌*◌, ◌≤◌, length};
ghost use Rattle.token.specs.Writing.{put_at};

// Record i: the length, least byte first, then the number of the kind, least byte first.
pub fn put_record(records: &mut [u8], i: usize, size: usize, kind: usize)
    requires { 6 * i + 6 ≤ length records.old }
    ensures { records.new ≡ put_at records.old i size kind }
{
    let at = 6 * i;
    records[at..at + 4].copy_from_slice(&size.to_le_bytes()[..4]);
    records[at + 4..at + 6].copy_from_slice(&kind.to_le_bytes()[..2]);
}
