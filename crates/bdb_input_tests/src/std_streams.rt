// Sources and sinks over a reader and a writer of std.
use bdb_io::{Image, ReadError, StdSink, StdSource, WriteFault, put_all, read_image};
use std::alloc::Global;
use std::io;
use std::io::{ErrorKind, Read, Write};
use std::test::Fail;

// Gives one byte a read, and fails once, when it has given `before` bytes.
#[derive(Drop)]
struct FailsOnce {
    bytes: &'static [u8],
    before: Option<usize>,
}

impl Read for FailsOnce {
    fn read(&mut self, buf: &mut [u8]) -> io::Result<usize> {
        if self.before == Some(0) {
            self.before = None;
            return Err(ErrorKind::Other.into());
        }
        self.before = self.before.map(|n| n.saturating_sub(1));
        if self.bytes.is_empty() || buf.is_empty() {
            return Ok(0);
        }
        buf[0] = self.bytes[0];
        self.bytes = &self.bytes[1..];
        Ok(1)
    }
}

// Whether a read gave this image or this error.
pub fn gives(answer: &Result<Image, ReadError>, want: Result<&[u8], ReadError>) -> bool {
    match (answer, want) {
        (Ok(image), Ok(bytes)) => image.bytes() == bytes,
        (Err(error), Err(wanted)) => *error == wanted,
        _ => false,
    }
}

// Whether a reader that fails once, behind so many bytes, is read on from there.
fn reads_on(alloc: Global, before: usize) -> bool {
    let text = b"abcde";
    let mut source = StdSource::new(FailsOnce {
        bytes: text,
        before: Some(before),
    });
    gives(
        &read_image(alloc, &mut source, 5),
        Err(ReadError::ReadFault),
    ) && gives(
        &read_image(alloc, &mut source, 5),
        Ok(&text[before.min(5)..]),
    )
}

#[test]
fn reads_a_real_reader(rt: HostRuntime) {
    for before in 0..6usize {
        assert!(rt; reads_on(rt.alloc(), before));
    }
}

#[test]
fn refuses_a_real_reader_that_has_too_much(rt: HostRuntime) {
    let mut source = StdSource::new(FailsOnce {
        bytes: b"abcde",
        before: None,
    });
    assert!(rt;
        gives(
            &read_image(rt.alloc(), &mut source, 4),
            Err(ReadError::TooLarge)
        )
    );
}

// How a writer ends, once it has taken so many bytes.
#[derive(Clone, Copy, Drop)]
enum End {
    Never,
    Fails(usize),
    TakesNone(usize),
}

// Takes at most two bytes a write.
#[derive(Drop)]
struct Narrow {
    taken: Vec<u8>,
    end: End,
}

impl Write for Narrow {
    fn write(&mut self, buf: &[u8]) -> io::Result<usize> {
        match self.end {
            End::Fails(at) if at <= self.taken.len() => return Err(ErrorKind::Other.into()),
            End::TakesNone(at) if at <= self.taken.len() => return Ok(0),
            _ => (),
        }
        let count = buf.len().min(2);
        self.taken.extend_from_slice(&buf[..count])?;
        Ok(count)
    }

    fn flush(&mut self) -> io::Result<()> {
        Ok(())
    }
}

fn writes_as(alloc: Global, end: End, want: Result<(), WriteFault>, taken: &[u8]) -> bool {
    let mut writer = Narrow {
        taken: Vec::new(alloc),
        end,
    };
    put_all(&mut StdSink::new(&mut writer), b"abcde") == want && writer.taken.as_slice() == taken
}

const WRITTEN: [(End, Result<(), WriteFault>, &[u8]); 6] = [
    (End::Never, Ok(()), b"abcde"),
    (End::Fails(0), Err(WriteFault), b""),
    (End::Fails(2), Err(WriteFault), b"ab"),
    (End::Fails(5), Ok(()), b"abcde"),
    (End::TakesNone(0), Err(WriteFault), b""),
    (End::TakesNone(4), Err(WriteFault), b"abcd"),
];

#[test]
fn writes_to_a_real_writer(rt: HostRuntime) {
    for (end, want, taken) in WRITTEN {
        assert!(rt; writes_as(rt.alloc(), end, want, taken));
    }
}
