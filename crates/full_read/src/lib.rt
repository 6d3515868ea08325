// Reading into a whole buffer, of a reader that may give its bytes in smaller pieces.
#![tactic(auto)]

ghost use Rattle.std.specs.Prelude.{◌≡◌, ◌≤◌, length, take};
ghost use Rattle.std.specs.Io.KnownBytes.{Consumes};

use std::io::Read;

// Reads until the buffer is full, the input ends or a read fails; how many bytes now stand at the buffer's front. Where the reader's bytes are known,
// these are the next of them, and no more are taken from it. A failed read counts as the end: the callers want the bytes before it, which an `Err` would
// lose.
pub fn read_full<R: Read>(input: &mut R, bytes: &mut [u8]) -> usize
    ensures within { result ≤ length bytes.new }
    ensures read { Consumes (R.remaining input.old) (R.remaining input.new) (take result bytes.new) }
{
    let mut done = 0;
    // By hand, since a step is as long as what a read gave.
    while done < bytes.len() {
        let Ok(n) = input.read(&mut bytes[done..]) else {
            return done;
        };
        if n == 0 {
            return done;
        }
        done += n;
    }
    done
}

#[cfg(test)]
mod tests {
    use super::*;
    use std::io;
    use std::io::ErrorKind;
    use std::test::Fail;

    #[derive(Drop)]
    struct Broken;

    impl Read for Broken {
        fn read(&mut self, _buf: &mut [u8]) -> io::Result<usize> {
            Err(io::Error::from(ErrorKind::Other))
        }
    }

    #[test]
    fn joins_pieces(rt: HostRuntime) -> Result<(), Fail> {
        let mut input = b"abc".as_slice().chain(b"defg".as_slice());
        let mut bytes = [b'-'; 5];
        assert_eq!(rt; read_full(&mut input, &mut bytes), 5);
        assert_eq!(rt; bytes, *b"abcde");
        assert_eq!(rt; read_full(&mut input, &mut bytes), 2);
        assert_eq!(rt; bytes, *b"fgcde");
        assert_eq!(rt; read_full(&mut input, &mut bytes), 0);
        Ok(())
    }

    #[test]
    fn ends_where_a_read_fails(rt: HostRuntime) -> Result<(), Fail> {
        let mut input = b"abc".as_slice().chain(Broken);
        let mut bytes = [b'-'; 5];
        assert_eq!(rt; read_full(&mut input, &mut bytes), 3);
        assert_eq!(rt; bytes, *b"abc--");
        assert_eq!(rt; read_full(&mut input, &mut bytes), 0);
        Ok(())
    }
}
