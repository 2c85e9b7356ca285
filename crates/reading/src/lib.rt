// Reading into memory of a fixed size.
#![tactic(auto)]

ghost use Rattle.std.specs.Prelude.{◌<◌, length, take, IfOk};
ghost use Rattle.std.specs.Io.{ReadsAtMost};
ghost use Rattle.std.specs.Io.KnownBytes.{Consumes, IsAtEnd};

use std::io;
use std::io::Read;

// Reads until `buf` is full or the input ends, and says how many bytes stand at the start of `buf`. A read that fails, or that a signal
// interrupts, ends it with that error.
pub fn read_full<R: Read>(from: &mut R, buf: &mut [u8]) -> io::Result<usize>
    ensures bound { ReadsAtMost result buf.new }
    ensures bytes { IfOk result (λ n. Consumes (R.remaining from.old) (R.remaining from.new) (take n buf.new)) }
    ensures end { IfOk result (λ n. n < length buf.new → IsAtEnd (R.remaining from.new)) }
{
    let mut done = 0;
    while done < buf.len() {
        let n = from.read(&mut buf[done..])?;
        if n == 0 {
            break;
        }
        done += n;
    }
    Ok(done)
}

#[cfg(test)]
mod tests {
    use super::*;

    // A byte at a time, as many as are left; then an error, or the end.
    #[derive(Drop)]
    struct Drip {
        left: u8,
        fails: bool,
    }

    impl Read for Drip {
        fn read(&mut self, buf: &mut [u8]) -> io::Result<usize> {
            if self.left == 0 {
                if self.fails {
                    return Err(io::Error::from(io::ErrorKind::ConnectionReset));
                }
                return Ok(0);
            }
            if buf.is_empty() {
                return Ok(0);
            }
            buf[0] = self.left;
            self.left -= 1;
            Ok(1)
        }
    }

    #[test]
    fn reads_until_full_then_to_the_end(rt: HostRuntime) -> io::Result<()> {
        let mut from = b"corners".as_slice();
        let mut buf = [0u8; 4];
        let first = read_full(&mut from, &mut buf)?;
        assert_eq!(rt; first, 4);
        assert_eq!(rt; &buf, b"corn");
        let second = read_full(&mut from, &mut buf)?;
        assert_eq!(rt; second, 3);
        assert_eq!(rt; &buf, b"ersn");
        let third = read_full(&mut from, &mut buf)?;
        assert_eq!(rt; third, 0);
        Ok(())
    }

    #[test]
    fn reads_on_after_a_short_read(rt: HostRuntime) -> io::Result<()> {
        let mut buf = [0u8; 4];
        let n = read_full(
            &mut Drip {
                left: 3,
                fails: false,
            },
            &mut buf,
        )?;
        assert_eq!(rt; n, 3);
        assert_eq!(rt; buf, [3, 2, 1, 0]);
        Ok(())
    }

    #[test]
    fn a_failed_read_is_no_end(rt: HostRuntime) {
        let mut buf = [0u8; 4];
        let n = read_full(
            &mut Drip {
                left: 3,
                fails: true,
            },
            &mut buf,
        );
        assert!(rt; n.is_err());
    }
}
