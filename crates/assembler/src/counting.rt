// The numbers of code, data and reserved cells.
ghost use Rattle.std.specs.Prelude.{◌≡◌};
ghost use Rattle.sources.specs.Image.{cells_marked};

pub(crate) fn counted(marks: &[u8], mark: u8) -> usize
    ensures { result ≡ cells_marked mark marks.now }
{
    let mut count = 0;
    // no `filter(..).count()`: twice as long, and more where marks change from cell to cell
    for m in marks {
        if *m == mark {
            count += 1;
        }
    }
    count
}
