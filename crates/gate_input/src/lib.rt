// Input read as the programs of this wing need it: until a buffer is full, or so many bytes as were asked for.

#![tactic(auto)]

ghost use Rattle.std.specs.Prelude.{◌≡◌, ◌≤◌, ◌<◌, length, take, IfOk, IfSome, IsNone, ◌⊎◌};
ghost use Rattle.std.specs.Io.KnownBytes.{Consumes, IsAtEnd};

use std::io::{self, Read};

// Reads until the bytes are full or the input ends; answers how many bytes were read, which `read_exact` doesn't.
pub fn read_full<R: Read>(input: &mut R, bytes: &mut [u8]) -> io::Result<usize>
    ensures bound { IfOk result (λ n. n ≤ length bytes.new) }
    ensures bytes { IfOk result (λ n. Consumes (R.remaining input.old) (R.remaining input.new) (take n bytes.new)) }
    ensures end { IfOk result (λ n. n < length bytes.new → IsAtEnd (R.remaining input.new)) }
{
    let mut done = 0;
    while done < bytes.len() {
        let n = input.read(&mut bytes[done..])?;
        if n == 0 {
            break;
        }
        done += n;
    }
    Ok(done)
}

// So many bytes of the input, in the front of the room for them; nothing where it has no room, or the input ends before.
pub fn read_part<'a, R: Read>(
    input: &mut R,
    room: &'a mut [u8],
    size: usize,
) -> io::Result<Option<&'a [u8]>>
    ensures size { IfOk result (λ part. IfSome part (λ p. length p.now ≡ size)) }
    ensures bytes { IfOk result (λ part. IfSome part (λ p. Consumes (R.remaining input.old) (R.remaining input.new) p.now)) }
    ensures none { IfOk result (λ part. IsNone part → (length room.old < size) ⊎ IsAtEnd (R.remaining input.new)) }
{
    if room.len() < size {
        return Ok(None);
    }
    let part = &mut room[..size];
    if read_full(input, part)? < size {
        return Ok(None);
    }
    Ok(Some(part))
}
