// The program: a raw image on standard input, the lines of its run on standard output.
#![tactic(auto)]

ghost use Rattle.std.specs.Prelude.{◌≤◌, length};

use report::Page;
use std::io::{Read, Write};

// Reads until buf is full, the input ends or a read fails, and says how many bytes there are.
// No method of `Read`: `read_to_end` and `read_to_string` need a heap, and `read_exact` does not tell how long a short input was.
fn read_full<R: Read>(input: &mut R, buf: &mut [u8]) -> usize
    ensures { result ≤ length buf.new }
{
    let mut done = 0;
    while done < buf.len() {
        match input.read(&mut buf[done..]) {
            Ok(0) | Err(_) => break,
            Ok(n) => done += n,
        }
    }
    done
}

// The lines of the image on the input. With no heap the buffer is fixed memory: its first half has room for the largest image, of 32,768
// bytes, and its second, which such an image leaves free, for both maps. A longer image is refused.
fn answer<R: Read>(input: &mut R) -> Page {
    let mut bytes = [0u8; 65536];
    let n = read_full(input, &mut bytes);
    if 32768 < n {
        // by the paper's number, as `report::refusal` takes any
        return report::refusal(1);
    }
    let (mem, rest) = bytes.split_at_mut(32768);
    let (read, written) = rest.split_at_mut(4096);
    let m = n / 8;
    image::lines(&mut mem[..n], &mut read[..m], &mut written[..m])
}

// Writes until all of buf is written, or a write takes nothing or fails, also where a signal interrupts it: `write_all` tries that again.
fn write_full<W: Write>(output: &mut W, buf: &[u8]) {
    let mut rest = buf;
    while !rest.is_empty() {
        match output.write(rest) {
            Ok(0) | Err(_) => break,
            Ok(n) => rest = &rest[n..],
        }
    }
}

// A write that fails ends the output, and changes nothing else.
fn main(rt: HostRuntime) {
    let page = answer(&mut rt.stdin());
    write_full(&mut rt.stdout(), page.as_bytes());
}
