// A query table is printed as text. The text is written into a local buffer, and the lent room only once all of it fits.

#![tactic(auto)]

mod entries;
mod ranks;
mod writing;

ghost use Rattle.reply.specs.Reply.{said};
ghost use Rattle.text.specs.Print.{TablePrinted};

use entries::hold;
use reply::{CURATOR_ENTRIES, CURATOR_HEIGHT, Reason, Reply, TEXT_BYTES, refuse};
use tables::check_query;
use writing::Writing;

// "A table within the curator's limits becomes query text": gives the number of its bytes.
pub fn print_query(query: &[u8], room: &mut [u8]) -> Reply
    ensures { TablePrinted query.now room.old (said result) room.new }
{
    if room.len() < TEXT_BYTES {
        return refuse(Reason::ShortRoom, 0);
    }
    let entries = check_query(query, CURATOR_ENTRIES, CURATOR_HEIGHT)?;
    let mut text = Writing::new();
    let Ok(()) = hold(query, entries - 1, 0, &mut text) else {
        return refuse(Reason::TextTooLong, 0);
    };
    let written = text.written();
    let size = written.len();
    room[..size].copy_from_slice(written);
    Ok(size)
}
