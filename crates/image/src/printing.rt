// Printing (specs/Printing.antt).
ghost use Rattle.std.specs.Prelude.{◌≡◌};
ghost use Rattle.image.specs.Printing.{known_marks, good_loan, leaves, printed};

use super::NotPrinted;
use super::lengths::text_length;
use super::lines::write;
use codes::limits::MOST_CELLS;
use codes::marks::LARGEST_MARK;

// Printing takes "marks 0..3": no mark is above the largest.
fn known_marks(map: &[u8]) -> bool
    ensures { result ≡ known_marks map.now }
{
    map.iter().all(|mark| *mark <= LARGEST_MARK)
}

// From 1 to 65,536 cells, and a map of as many known marks.
#[tactic(auto, unfolding(crate::specs::Printing::good_loan))]
pub fn good_loan(memory: &[u16], map: &[u8]) -> bool
    ensures { result ≡ good_loan memory.now map.now }
{
    1 <= memory.len() && memory.len() <= MOST_CELLS && map.len() == memory.len() && known_marks(map)
}

// Prints memory and map at the head of a room, and answers the text's length. Nothing is written before it is certain that all of the text fits.
pub fn print(memory: &[u16], map: &[u8], room: &mut [u8]) -> Result<usize, NotPrinted>
    ensures { leaves result room.new ≡ printed memory.now map.now room.old }
{
    if !good_loan(memory, map) {
        return Err(NotPrinted::BadLoan);
    }
    let length = text_length(memory, map);
    if room.len() < length {
        return Err(NotPrinted::RoomShort);
    }
    write(room, memory, map);
    Ok(length)
}
