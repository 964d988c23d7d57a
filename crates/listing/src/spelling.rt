// Names, written into a room that has place for them by their letters (specs/Inner/Letters.antt).
ghost use Rattle.std.specs.Prelude.{◌+◌, ◌≤◌, length};
ghost use Rattle.texts.specs.Inner.Wrote.{Wrote};
ghost use Rattle.listing.specs.Inner.Letters.{letters_of};

// The letters of a name's number, the first its lowest digit. Answers the place after them.
pub(crate) fn letters(room: &mut [u8], at: usize, number: u64) -> usize
    requires { at + length (letters_of number) ≤ length room.old }
    ensures { Wrote room.old at (letters_of number) room.new result }
{
    let mut put = at;
    let mut left = number;
    // a while: it ends with the number's last digit, and nothing is counted
    while left != 0 {
        room[put] = (left % 256) as u8;
        left /= 256;
        put += 1;
    }
    put
}
