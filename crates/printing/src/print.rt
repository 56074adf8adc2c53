// The lines that house and desks print, each with its end.
ghost use Rattle.std.specs.Prelude.{ℕ, ◌+◌, ◌*◌, length};
ghost use Rattle.printing.specs.Printed.{Prints, to_line, lapsed_line, sync_text};

use ids::DeskId;
use text::decimal::write_decimal;
use text::hex::write_hex;
use text::room::{NoRoom, need_room};

// Room for the words and numbers of any line.
const WORDS: usize = 64;

// `to J HEX`: a message to the house, 0, or to a desk.
pub fn write_to(out: &mut Vec<u8>, to: DeskId, bytes: &[u8]) -> Result<(), NoRoom>
    ensures { Prints out.old out.new result (2 * length bytes.now + 64) (to_line to.0 bytes.now) }
{
    need_room(out, bytes.len().saturating_mul(2).saturating_add(WORDS))?;
    out.extend_from_slice(b"to ").unwrap();
    write_decimal(out, u64::from(to.0)).unwrap();
    out.push_reserved(b' ');
    write_hex(out, bytes).unwrap();
    out.push_reserved(b'\n');
    Ok(())
}

// `lapsed I`: the house has ended a desk's session.
pub fn write_lapsed(out: &mut Vec<u8>, desk: DeskId) -> Result<(), NoRoom>
    ensures { Prints out.old out.new result 64 (lapsed_line desk.0) }
{
    need_room(out, WORDS)?;
    out.extend_from_slice(b"lapsed ").unwrap();
    write_decimal(out, u64::from(desk.0)).unwrap();
    out.push_reserved(b'\n');
    Ok(())
}

// `sync WORD`, as it was asked for.
pub fn write_sync(out: &mut Vec<u8>, word: &[u8]) -> Result<(), NoRoom>
    ensures { Prints out.old out.new result (length word.now + 64) (sync_text word.now) }
{
    need_room(out, WORDS + word.len())?;
    out.extend_from_slice(b"sync ").unwrap();
    out.extend_from_slice(word).unwrap();
    out.push_reserved(b'\n');
    Ok(())
}
