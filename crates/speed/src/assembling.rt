// A source assembled so often into one lent memory and map, and the line that tells what it came to.
use super::checksum::Checksum;
use assembler::assemble::assemble;
use std::io;
use std::io::Write;

// The largest memory and map that the assembler takes.
const CELLS: usize = 16384;

// A hundred times; only those that are accepted count.
fn work(output: &mut impl Write, name: &str, source: &[u8]) -> io::Result<()> {
    let mut m = [0u16; CELLS];
    let mut map = [0u8; CELLS];
    let mut times = 0u64;
    let mut code = 0;
    let mut data = 0;
    for _ in 0..100u32 {
        let reply = assemble(source, &mut m, &mut map);
        if reply.refusal == 0 {
            times += 1;
        }
        code = reply.code;
        data = reply.data;
    }
    let sum = Checksum::new().over(&m).over(&map).sum;
    writeln!(
        output,
        "{name}: {times} times, code {code}, data {data}, checksum {sum}"
    )
}

// The two sources of a text, parted by its first byte 0; where it has none, it is the first.
pub(crate) fn sources(output: &mut impl Write, text: &[u8]) {
    match text.iter().position(|b| *b == 0) {
        Some(k) => {
            let _ = work(output, "labels_20", &text[..k]);
            let _ = work(output, "labels_500", &text[k + 1..]);
        }
        None => {
            let _ = work(output, "labels_20", text);
        }
    }
}
