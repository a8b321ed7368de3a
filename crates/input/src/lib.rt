// What the programs read, all of it or as much as a list has places for, and how they tell what failed.
#![tactic(auto)]

ghost use Rattle.std.specs.Prelude.{◌≡◌, ◌<◌, ◌≤◌, ℕ, List, ◌++◌, codes, length, take, IfOk, OnOk};
ghost use Rattle.std.specs.Io.KnownBytes.{Appends, Consumes, IsAtEnd};
ghost use Rattle.input.specs.Told.{bytes_read};

use std::io::{Cursor, Read, Write};
use std::{io, str};

// A read that failed, and how many bytes were read before it. `Drop` alone is derived: an `io::Error` can't be copied or compared.
#[derive(Drop)]
pub struct Unread {
    pub bytes: usize,
    pub error: io::Error,
}

// For a caller to whom what was read before a failure is nothing.
impl From<Unread> for io::Error {
    ghost from_gives = { λ unread error. error ≡ unread.error };

    fn from(unread: Unread) -> io::Error {
        unread.error
    }
}

// Reads into the lent list, until it is full or the input ends, and says how many bytes that were, also where a read failed. There are never more
// bytes than the list has places. Where it is known what the reader has left, they are its next ones in their order, and all of them unless a read
// failed or the list is full. Which bytes the system hands over for a file, and when it fails, is assumed and not proved.
pub fn read_all<R: Read>(reader: &mut R, text: &mut [u8]) -> Result<usize, Unread>
    ensures near { bytes_read result ≤ length text.new }
    ensures in_order { Consumes (R.remaining reader.old) (R.remaining reader.new) (take (bytes_read result) text.new) }
    ensures to_the_end { IfOk result (λ bytes. bytes < length text.new → IsAtEnd (R.remaining reader.new)) }
{
    let mut bytes = 0;
    // no `for`: a read says how far it goes
    while bytes < text.len() {
        match reader.read(&mut text[bytes..]) {
            Ok(0) => break,
            Ok(more) => bytes += more,
            Err(error) => return Err(Unread { bytes, error }),
        }
    }
    Ok(bytes)
}

// More bytes than the words for an error take, and its number behind them.
const WORDS: usize = 256;

// Writes a line that tells what failed: what it is, as the caller names it, a colon, and the system's words for the error. The error's number,
// which std puts behind them, is left out. In parts, and not by `write!`: a name is bytes, not text.
pub fn tell_failure<W: Write>(out: &mut W, what: &[u8], error: io::Error) -> io::Result<()>
    ensures { OnOk result ((words : List ℕ)
        × Appends (W.contents out.old) (W.contents out.new) (what.now ++ codes ": " ++ words ++ codes "\n")) }
{
    let mut text = Cursor::new([0u8; WORDS]);
    let _ = write!(text, "{error}");
    // std has no `usize::from` for 64 bits
    let length = (text.position() as usize).min(WORDS);
    let bytes = text.into_inner();
    let text = str::from_utf8(&bytes[..length]).unwrap_or("");
    let words = text
        .split_once(" (os error ")
        .map_or(text, |(words, _)| words);
    out.write_all(what)?;
    out.write_all(b": ")?;
    out.write_all(words.as_bytes())?;
    out.write_all(b"\n")
}

#[cfg(test)]
mod tests {
    use super::*;

    // Two bytes a read and then one, and then always an error.
    #[derive(Drop)]
    struct Cut {
        left: usize,
    }

    impl Read for Cut {
        fn read(&mut self, buf: &mut [u8]) -> io::Result<usize> {
            if self.left == 0 {
                return Err(io::Error::from_raw_os_error(5));
            }
            let count = buf.len().min(self.left).min(2);
            self.left -= count;
            buf[..count].fill(b'x');
            Ok(count)
        }
    }

    #[test]
    fn reads_to_the_end(rt: HostRuntime) {
        for (given, bytes, text) in [
            ("", 0, "...."),
            ("ab", 2, "ab.."),
            ("abcd", 4, "abcd"),
            ("abcde", 4, "abcd"),
        ] {
            let mut read = [b'.'; 4];
            let told = read_all(&mut given.as_bytes(), &mut read);
            assert_eq!(rt; told.ok(), Some(bytes));
            assert!(rt; &read[..] == text.as_bytes());
        }
    }

    #[test]
    fn tells_where_a_read_failed(rt: HostRuntime) {
        let mut read = [b'.'; 8];
        let told = read_all(&mut Cut { left: 3 }, &mut read);
        let failed = told
            .err()
            .map(|unread| (unread.bytes, unread.error.raw_os_error()));
        assert_eq!(rt; failed, Some((3, Some(5))));
        let full = read_all(&mut Cut { left: 3 }, &mut read[..3]);
        assert!(rt; full.is_ok());
    }

    #[test]
    fn tells_the_systems_words(rt: HostRuntime) -> io::Result<()> {
        let missing = io::Error::from_raw_os_error(2);
        let unnamed = io::Error::from(io::ErrorKind::InvalidFilename);
        for (error, line) in [
            (missing, "a.job: No such file or directory\n"),
            (unnamed, "a.job: invalid filename\n"),
        ] {
            let mut told = Vec::new(rt.alloc());
            tell_failure(&mut told, b"a.job", error)?;
            assert!(rt; told.as_slice() == line.as_bytes());
        }
        Ok(())
    }
}
