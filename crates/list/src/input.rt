// Reading standard input to its end, with a read that fails told from the end.
ghost use Rattle.list.specs.Input.{Within};

use std::io;
use std::io::Read;

// Reads until the input ends, the buffer is full, or a read fails: how many octets there are, at the start of the buffer.
pub(crate) fn read_input(input: &mut impl Read, buf: &mut [u8]) -> io::Result<usize>
    ensures { Within result buf.new }
{
    let mut n = 0;
    // No `for` is plainer: a read gives as many octets as there are.
    while n < buf.len() {
        match input.read(&mut buf[n..])? {
            0 => return Ok(n),
            more => n += more,
        }
    }
    Ok(n)
}
