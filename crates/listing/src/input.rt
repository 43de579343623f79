// Bytes read from an open file.
ghost use Rattle.std.specs.Prelude.{◌≡◌, ◌<◌, ◌≤◌, IfOk, IfSome, length, nat_lt, take};
ghost use Rattle.std.specs.Io.KnownBytes.{Consumes, IsAtEnd};

use std::io;
use std::io::Read;

// Reads until `buf` is full or the file ends, and gives the number of bytes put at its start.
pub fn fill<R: Read>(file: &mut R, buf: &mut [u8]) -> io::Result<usize>
    ensures bound { IfOk result (λ n. n ≤ length buf.new) }
    ensures bytes { IfOk result (λ n. Consumes (R.remaining file.old) (R.remaining file.new) (take n buf.new)) }
    ensures end { IfOk result (λ n. n < length buf.new → IsAtEnd (R.remaining file.new)) }
{
    let mut done = 0;
    while done < buf.len() {
        let n = file.read(&mut buf[done..])?;
        if n == 0 {
            return Ok(done);
        }
        done += n;
    }
    Ok(done)
}

// Is there more in an open file than was read of it.
pub fn has_more<R: Read>(file: &mut R) -> io::Result<bool>
    ensures { IfOk result (λ more. IfSome (R.remaining file.old) (λ bytes. more ≡ nat_lt 0 (length bytes))) }
{
    let mut more = [0u8; 1];
    Ok(0 < fill(file, &mut more)?)
}
