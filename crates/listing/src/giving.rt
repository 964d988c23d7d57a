// Memory and map listed as source (specs/Listing.antt).
ghost use Rattle.std.specs.Prelude.{◌≡◌, true, length};
ghost use Rattle.image.specs.Printing.{good_loan};
ghost use Rattle.listing.specs.Listing.{leaves, Replies};
ghost use Rattle.listing.specs.Inner.Walk.{lines_of, reply_by};
ghost use Rattle.listing.specs.Inner.Begins.{measure_of};

use super::NotListed;
use super::walking::{measured, write};
use codes::limits::LONGEST_SOURCE;
use image::printing::good_loan;

// Every code run decodes, and the text's length is known: it is written, or is too long.
fn given(memory: &[u16], map: &[u8], room: &mut [u8], length: usize) -> Result<usize, NotListed>
    requires { (good_loan memory.now map.now ≡ true)
        × (measure_of (lines_of memory.now map.now) ≡ Ok length) }
    ensures { leaves result room.new ≡ reply_by room.old (lines_of memory.now map.now) }
{
    if room.len() < length || LONGEST_SOURCE < length {
        return Err(NotListed::TooLong);
    }
    write(memory, map, room);
    Ok(length)
}

// Lists memory and map at the head of a room, and answers the text's length. Nothing is written before it is certain that every code run decodes and that all of the text fits.
pub fn list(memory: &[u16], map: &[u8], room: &mut [u8]) -> Result<usize, NotListed>
    ensures { Replies memory.now map.now room.old (leaves result room.new) }
{
    if !good_loan(memory, map) {
        return Err(NotListed::BadLoan);
    }
    // a match: map_err(NotListed::Undecoded)? says no more, and its two steps need a longer proof
    match measured(memory, map) {
        Err(at) => Err(NotListed::Undecoded(at)),
        Ok(length) => given(memory, map, room, length),
    }
}
