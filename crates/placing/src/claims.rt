// The cells that a statement claims: whether one of them has a mark, and marking them.
ghost use Rattle.std.specs.Prelude.{◌≡◌, ◌+◌, ◌≤◌, ◌<◌, length, replicate};
ghost use Rattle.std.proofs.lemmas.List.Edits.{sets};
ghost use Rattle.sources.specs.Inner.Assembling.{taken};

use codes::marks::FREE;

pub(crate) fn is_taken(marks: &[u8], at: usize, n: usize) -> bool
    requires { 0 < n → at + n ≤ length marks.now }
    ensures { result ≡ taken marks.now at n }
{
    n != 0 && marks[at..at + n].iter().any(|m| *m != FREE)
}

pub(crate) fn paint(marks: &mut [u8], at: usize, n: usize, mark: u8)
    requires { 0 < n → at + n ≤ length marks.old }
    ensures { marks.new ≡ sets marks.old at (replicate n mark) }
{
    if n != 0 {
        marks[at..at + n].fill(mark);
    }
}
