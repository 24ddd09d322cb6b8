// Files and standard input, read and written for the programs. Whatever fails is told apart from the end of a file, and gets a line on standard error that says why.
#![tactic(auto)]

ghost use Rattle.std.specs.Prelude.{IfOk, take};
ghost use Rattle.std.specs.Io.KnownBytes.{Consumes};
ghost use Rattle.files.specs.Files.{Within};

use std::fs::{File, OpenFile};
use std::io;
use std::io::{ErrorKind, Read, Write};
use std::rt::Files;

// Reading or writing failed. The line on standard error has said why.
#[derive(Clone, Copy, Debug, PartialEq, Eq)]
pub struct Failed;

// Says on standard error what failed, and why.
fn fail(rt: &impl Eprint, name: &str, error: io::Error) -> Failed {
    // Where this can't be written either, there is nobody left to tell.
    let _ = eprintln!(rt; "{name}: {error}");
    Failed
}

// Reads until a buffer is full or the input ends, and answers how many bytes it has then.
fn read_all<R: Read>(
    rt: &impl Eprint,
    reader: &mut R,
    name: &str,
    buf: &mut [u8],
) -> Result<usize, Failed>
    ensures within { Within buf.new result }
    ensures bytes { IfOk result (λ end. Consumes (R.remaining reader.old) (R.remaining reader.new) (take end buf.new)) }
{
    let mut end = 0;
    while end < buf.len() {
        let count = reader
            .read(&mut buf[end..])
            .map_err(|error| fail(rt, name, error))?;
        if count == 0 {
            break;
        }
        end += count;
    }
    Ok(end)
}

// One read of standard input: as many bytes as it has by now, and none at its end.
pub fn read_next(rt: &(impl io::Input + Eprint), buf: &mut [u8]) -> Result<usize, Failed>
    ensures { Within buf.new result }
{
    rt.reader()
        .read(buf)
        .map_err(|error| fail(rt, "standard input", error))
}

// Reads standard input into a buffer, as far as it fits.
pub fn read_input(rt: &(impl io::Input + Eprint), buf: &mut [u8]) -> Result<usize, Failed>
    ensures { Within buf.new result }
{
    read_all(rt, &mut rt.reader(), "standard input", buf)
}

// The name of a file as text, which is what the system is asked with.
fn file_name(path: &[u8]) -> io::Result<&str> {
    str::from_utf8(path).map_err(|_| io::Error::new(
        ErrorKind::InvalidFilename,
        "the file's name is not UTF-8",
    ))
}

// Opens a file to be read.
fn open<R: Files>(rt: &R, path: &[u8]) -> io::Result<R::File> {
    File::open(rt, file_name(path)?)
}

// Reads a file into a buffer, as far as it fits.
pub fn read_file(rt: &(impl Files + Eprint), path: &[u8], buf: &mut [u8]) -> Result<usize, Failed>
    ensures { Within buf.new result }
{
    let mut file = open(rt, path).map_err(|error| fail(rt, "open", error))?;
    read_all(rt, &mut file, "open", buf)
}

// Waits until the bytes of a file are stored. A pipe or a device has nothing to wait for, and answers that it can't be asked.
fn store(file: &impl OpenFile) -> io::Result<()> {
    match file.sync_data() {
        Err(error) if error.kind() != ErrorKind::InvalidInput => Err(error),
        _ => Ok(()),
    }
}

// Writes bytes to a file, in place of whatever it held.
fn overwrite(rt: &impl Files, path: &[u8], bytes: &[u8]) -> io::Result<()> {
    let mut file = File::create(rt, file_name(path)?)?;
    file.write_all(bytes)?;
    store(&file)
}

// Writes bytes to a file, in place of whatever it held. All of them are written, or it failed.
pub fn write_file(rt: &(impl Files + Eprint), path: &[u8], bytes: &[u8]) -> Result<(), Failed> {
    overwrite(rt, path, bytes).map_err(|error| fail(rt, "save", error))
}

// Writes a text to standard output. All of it is written, or it failed.
pub fn print(rt: &(impl Print + Eprint), text: &[u8]) -> Result<(), Failed> {
    rt.write_all(text)
        .map_err(|error| fail(rt, "standard output", error))
}

#[cfg(test)]
mod tests {
    use super::*;

    // A reader whose every read fails.
    #[derive(Drop)]
    struct Broken;

    impl Read for Broken {
        fn read(&mut self, _buf: &mut [u8]) -> io::Result<usize> {
            Err(io::Error::other("broken"))
        }
    }

    #[test]
    fn reads_to_the_end(rt: HostRuntime) {
        let mut buf = [0u8; 5];
        let mut reader = [1u8, 2].as_slice().chain([3u8].as_slice());
        let input = read_all(&rt, &mut reader, "pieces", &mut buf);
        assert_eq!(rt; input, Ok(3));
        assert_eq!(rt; buf, [1, 2, 3, 0, 0]);
    }

    #[test]
    fn reads_as_far_as_it_fits(rt: HostRuntime) {
        let mut buf = [0u8; 2];
        let mut reader = [1u8, 2].as_slice().chain([3u8].as_slice());
        let input = read_all(&rt, &mut reader, "pieces", &mut buf);
        assert_eq!(rt; input, Ok(2));
        assert_eq!(rt; buf, [1, 2]);
    }

    #[test]
    fn tells_a_failure_from_the_end(rt: HostRuntime) {
        let mut buf = [0u8; 5];
        let mut reader = [1u8, 2].as_slice().chain(Broken);
        let input = read_all(&rt, &mut reader, "pieces", &mut buf);
        assert_eq!(rt; input, Err(Failed));
    }

    // Whether no file of this name can be read or written.
    fn opens_nothing(rt: &(impl Files + Eprint), path: &[u8]) -> bool {
        let mut buf = [0; 5];
        let read = read_file(rt, path, &mut buf);
        let written = write_file(rt, path, &buf);
        read == Err(Failed) && written == Err(Failed)
    }

    #[test]
    fn opens_no_missing_file(rt: HostRuntime) {
        assert!(rt; opens_nothing(&rt, b"no/such/file"));
    }

    #[test]
    fn opens_no_name_that_is_no_text(rt: HostRuntime) {
        assert!(rt; opens_nothing(&rt, b"\xFF"));
    }
}
