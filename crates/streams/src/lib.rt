//! Filling a lent buffer from what reads.
#![tactic(auto)]

ghost use Rattle.std.specs.Prelude.{◌≤◌, length, take};
ghost use Rattle.std.specs.Io.KnownBytes.{Consumes};

use std::io::Read;

/// Reads until the buffer is full, the input ends or a read fails, and gives how many bytes it put at the buffer's start: the next ones of the input.
// By hand, since `read_to_end` asks for memory, and reads on after an interrupted read.
pub fn read_full<R: Read>(from: &mut R, buffer: &mut [u8]) -> usize
    ensures inside { result ≤ length buffer.new }
    ensures taken { Consumes (R.remaining from.old) (R.remaining from.new) (take result buffer.new) }
{
    let mut done = 0;
    while done < buffer.len() {
        let n = from.read(&mut buffer[done..]).unwrap_or(0);
        if n == 0 {
            return done;
        }
        done += n;
    }
    done
}

#[cfg(test)]
mod tests {
    use super::*;
    use std::io;
    use std::io::ErrorKind;

    /// Its reads fail.
    #[derive(Drop)]
    struct Failing;

    impl Read for Failing {
        fn read(&mut self, _buf: &mut [u8]) -> io::Result<usize> {
            Err(ErrorKind::Other.into())
        }
    }

    #[test]
    fn keeps_what_came_before_a_failure(rt: HostRuntime) {
        let mut input = (&b"he"[..]).chain(Failing);
        let mut buffer = *b"abc";
        assert_eq!(rt; read_full(&mut input, &mut buffer), 2);
        assert_eq!(rt; buffer, *b"hec");
    }

    #[test]
    fn reads_full_and_to_the_end(rt: HostRuntime) {
        let mut input = &b"hello"[..];
        let mut buffer = [0u8; 3];
        assert_eq!(rt; read_full(&mut input, &mut buffer), 3);
        assert_eq!(rt; buffer, *b"hel");
        assert_eq!(rt; read_full(&mut input, &mut buffer), 2);
        assert_eq!(rt; buffer, *b"lol");
        assert_eq!(rt; read_full(&mut input, &mut buffer), 0);
    }
}
