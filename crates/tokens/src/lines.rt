// Where a line ends (specs/Lines.antt).
ghost use Rattle.std.specs.Prelude.{◌≡◌, ◌+◌, drop};
ghost use Rattle.tokens.specs.Reading.{line_length};

// The end of the line that starts at a place: its LF, or the source's end.
pub fn line_end(s: &[u8], from: usize) -> usize
    ensures { result ≡ from + line_length (drop from s.now) }
{
    // no `position`: half as slow again on empty lines
    for i in from..s.len() {
        if s[i] == b'\n' {
            return i;
        }
    }
    from.max(s.len())
}
