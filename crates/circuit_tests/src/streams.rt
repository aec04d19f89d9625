//! That streams give and take what they are asked, and what the readers and writers of std come to.

use rx_io::{
    Failed, MemSink, MemSource, ReadAllFault, Sink, Source, StdSink, StdSource, put_all, read_all,
};
use std::alloc::Global;
use std::io;
use std::test::Fail;

/// A text, the calls that fail, the most that may be read, and how much is.
const READS: &[(&str, &[u32], u64, Result<usize, ReadAllFault>)] = &[
    ("", &[], 0, Ok(0)),
    ("abc", &[], 3, Ok(3)),
    ("abcd", &[], 3, Err(ReadAllFault::TooLong)),
    ("a", &[], 0, Err(ReadAllFault::TooLong)),
    ("abc", &[1], 3, Err(ReadAllFault::Failed)),
    ("abc", &[2], 3, Err(ReadAllFault::Failed)),
    ("abcd", &[2], 3, Err(ReadAllFault::TooLong)),
    ("abc", &[0, 3, 9], 3, Ok(3)),
];

/// A sink's room, the calls that fail, the most that one takes; pieces, whether each is taken, and what the sink holds then.
const WRITES: &[(usize, &[u32], usize, &[(&str, bool)], &str)] = &[
    (5, &[], 9, &[("", true), ("hello", true)], "hello"),
    (5, &[], 1, &[("", true), ("hello", true)], "hello"),
    (9, &[6], 1, &[("", true), ("hello", true)], "hello"),
    (9, &[3], 2, &[("", true), ("hello", false)], "hell"),
    (3, &[], 2, &[("", true), ("hello", false)], "hel"),
    (0, &[], 1, &[("", true), ("hello", false)], ""),
    // A sink that failed takes more at the next call.
    (9, &[2], 2, &[("abc", false), ("def", true)], "abdef"),
];

/// How many bytes of three a writer takes, whether it can be flushed, and what its sink answers.
const STANDARD: &[(usize, bool, Result<usize, Failed>)] = &[
    (2, true, Ok(2)),
    (9, true, Ok(3)),
    (0, true, Err(Failed)),
    (2, false, Err(Failed)),
];

/// Gives one byte at a time.
#[derive(Drop)]
struct OneByte(MemSource);

impl Source for OneByte {
    ghost use Rattle.std.specs.Prelude.{None};

    ghost left = { λ _. None };

    ghost faults = { λ s. s.0.faults };

    fn read(&mut self, buf: &mut [u8]) -> Result<usize, Failed> {
        let count = buf.len().min(1);
        self.0.read(&mut buf[..count])
    }
}

/// Is interrupted at its first call, gives a byte at its second, and fails from then on.
#[derive(Drop)]
struct Reader {
    calls: u32,
}

impl io::Read for Reader {
    fn read(&mut self, buf: &mut [u8]) -> io::Result<usize> {
        self.calls = self.calls.saturating_add(1);
        match self.calls {
            1 => Err(io::ErrorKind::Interrupted.into()),
            2 if !buf.is_empty() => {
                buf[0] = b'x';
                Ok(1)
            }
            _ => Err(io::ErrorKind::Other.into()),
        }
    }
}

/// Is interrupted at its first call, and then takes this many bytes of each write.
#[derive(Drop)]
struct Writer {
    is_interrupted: bool,
    takes: usize,
    can_flush: bool,
}

impl io::Write for Writer {
    fn write(&mut self, piece: &[u8]) -> io::Result<usize> {
        if self.is_interrupted {
            self.is_interrupted = false;
            return Err(io::ErrorKind::Interrupted.into());
        }
        Ok(self.takes.min(piece.len()))
    }

    fn flush(&mut self) -> io::Result<()> {
        if self.can_flush {
            Ok(())
        } else {
            Err(io::ErrorKind::StorageFull.into())
        }
    }
}

#[test]
fn reads_to_the_end_within_the_limit(rt: HostRuntime) -> Result<(), Fail> {
    for (text, failing, most, wanted) in READS {
        let bytes = Vec::from_slice(rt.alloc(), text.as_bytes())?;
        let failing = Vec::from_slice(rt.alloc(), failing)?;
        let mut source = MemSource::new(bytes, failing);
        let read = read_all(rt.alloc(), &mut source, *most).map(|bytes| bytes.len());
        assert_eq!(rt; read, *wanted, "{text:?} to {most}");
    }
    Ok(())
}

/// So many different bytes.
fn many_bytes(alloc: Global, count: u32) -> Result<Vec<u8>, Fail> {
    let mut bytes = Vec::new(alloc);
    for number in 0..count {
        bytes.push((number % 251) as u8)?;
    }
    Ok(bytes)
}

#[test]
fn reads_many_pieces(rt: HostRuntime) -> Result<(), Fail> {
    let bytes = many_bytes(rt.alloc(), 150_000)?;
    let mut whole = MemSource::new(bytes.clone()?, Vec::new(rt.alloc()));
    assert!(rt; read_all(rt.alloc(), &mut whole, 150_000)? == bytes);
    let few = many_bytes(rt.alloc(), 100)?;
    let mut single = OneByte(MemSource::new(few.clone()?, Vec::new(rt.alloc())));
    assert!(rt; read_all(rt.alloc(), &mut single, 100)? == few);
    let mut slice = StdSource::new(few.as_slice());
    assert!(rt; read_all(rt.alloc(), &mut slice, 100)? == few);
    Ok(())
}

#[test]
fn writes_all_or_a_front(rt: HostRuntime) -> Result<(), Fail> {
    for (room, failing, most, pieces, held) in WRITES {
        let failing = Vec::from_slice(rt.alloc(), failing)?;
        let mut sink = MemSink::new(rt.alloc(), *room, failing, (*most).max(1))?;
        for (piece, is_taken) in pieces.iter() {
            assert_eq!(rt;
                put_all(&mut sink, piece.as_bytes()).is_ok(),
                *is_taken,
                "{piece} of {room}"
            );
        }
        assert_eq!(rt; sink.held(), held.as_bytes(), "room {room}, most {most}");
    }
    Ok(())
}

#[test]
fn adapts_readers_and_writers(rt: HostRuntime) -> Result<(), Fail> {
    let mut source = StdSource::new(Reader { calls: 0 });
    let mut buf = [0; 4];
    assert_eq!(rt; source.read(&mut buf), Ok(1));
    assert_eq!(rt; buf[0], b'x');
    assert_eq!(rt; source.read(&mut buf), Err(Failed));
    for (takes, can_flush, wanted) in STANDARD {
        let mut sink = StdSink::new(Writer {
            is_interrupted: true,
            takes: *takes,
            can_flush: *can_flush,
        });
        assert_eq!(rt; sink.write(b"abc"), *wanted, "takes {takes}");
    }
    Ok(())
}
