//! Reading and writing at small cases, and how the adapters take the faults of std's streams.

use super::*;
use std::io;
use std::io::{ErrorKind, Read, Write};
use std::test::Fail;

#[test]
fn sources_are_read(rt: HostRuntime) -> Result<(), Fail> {
    let alloc = rt.alloc();
    // Bytes a call, failing calls, limit, what comes of "abcde", what a second read gives.
    let cases: [(usize, &[u64], usize, Result<&[u8], ReadEnd>, &[u8]); 5] = [
        (1, &[], 5, Ok(b"abcde"), b""),
        (1, &[], 4, Err(ReadEnd::TooLong), b""),
        (2, &[1], 5, Err(ReadEnd::Fault), b"cde"),
        (3, &[0], 5, Err(ReadEnd::Fault), b"abcde"),
        (9, &[7], 9, Ok(b"abcde"), b""),
    ];
    for (most, failing, limit, want, rest) in cases {
        assert!(rt; most > 0);
        let bytes = b"abcde".to_vec(alloc)?;
        let mut source = MemSource::new(bytes, most, failing.to_vec(alloc)?);
        let found = read_all(alloc, &mut source, limit);
        assert!(rt; is_same(&found, want), "most {most}, limit {limit}");
        let again = read_all(alloc, &mut source, limit)?;
        assert_eq!(rt; again.as_slice(), rest, "after most {most}, limit {limit}");
    }
    Ok(())
}

fn is_same(found: &Result<Vec<u8>, ReadEnd>, want: Result<&[u8], ReadEnd>) -> bool {
    match (found, want) {
        (Ok(bytes), Ok(wanted)) => bytes.as_slice() == wanted,
        (Err(end), Err(wanted)) => *end == wanted,
        _ => false,
    }
}

#[test]
fn texts_are_written(rt: HostRuntime) -> Result<(), Fail> {
    let alloc = rt.alloc();
    // Room, failing calls, what comes of writing "abc" twice, what is held then.
    let fault = Err(WriteEnd::Fault);
    let cases: [(usize, &[u64], [Result<(), WriteEnd>; 2], &[u8]); 4] = [
        (6, &[], [Ok(()), Ok(())], b"abcabc"),
        (4, &[], [Ok(()), fault], b"abca"),
        (9, &[0], [fault, Ok(())], b"abc"),
        (9, &[1], [Ok(()), fault], b"abc"),
    ];
    for (room, failing, want, held) in cases {
        let mut sink = MemSink::new(alloc, room, failing.to_vec(alloc)?)?;
        for each in want {
            assert_eq!(rt; write_all(&mut sink, b"abc"), each, "room {room}");
        }
        assert_eq!(rt; sink.held(), held, "room {room}");
    }
    Ok(())
}

#[test]
fn a_buffer_writes_in_pieces(rt: HostRuntime) -> Result<(), Fail> {
    let alloc = rt.alloc();
    // Room of the buffer, failing calls, what comes of "ab", "cd", "efgh" and of a flush, what is held then.
    let fault = Err(WriteEnd::Fault);
    let cases: [(usize, &[u64], [Result<(), WriteEnd>; 4], &[u8]); 5] = [
        (9, &[], [Ok(()), Ok(()), Ok(()), Ok(())], b"abcdefgh"),
        (3, &[], [Ok(()), Ok(()), Ok(()), Ok(())], b"abcdefgh"),
        (0, &[], [Ok(()), Ok(()), Ok(()), Ok(())], b"abcdefgh"),
        (9, &[0], [Ok(()), Ok(()), Ok(()), fault], b""),
        (3, &[1], [Ok(()), Ok(()), fault, Ok(())], b"abcd"),
    ];
    for (room, failing, want, held) in cases {
        let mut sink = MemSink::new(alloc, 9, failing.to_vec(alloc)?)?;
        let mut buffer = Buffer::new(alloc, room)?;
        assert_eq!(rt; buffer.put(&mut sink, b"ab"), want[0], "room {room}");
        assert_eq!(rt; buffer.put(&mut sink, b"cd"), want[1], "room {room}");
        assert_eq!(rt; buffer.put(&mut sink, b"efgh"), want[2], "room {room}");
        assert_eq!(rt; buffer.flush(&mut sink), want[3], "room {room}");
        assert_eq!(rt; sink.held(), held, "room {room}");
    }
    Ok(())
}

#[test]
fn streams_of_std_are_adapted(rt: HostRuntime) -> Result<(), Fail> {
    let alloc = rt.alloc();
    let text: &[u8] = b"abc";
    let read = read_all(alloc, &mut StdSource::new(text), 3)?;
    assert_eq!(rt; read.as_slice(), text);
    let mut room = [0; 3];
    let mut sink = StdSink::new(room.as_mut_slice());
    assert_eq!(rt; write_all(&mut sink, b"ab"), Ok(()));
    assert_eq!(rt; write_all(&mut sink, b"cd"), Err(WriteEnd::Fault));
    Ok(())
}

/// Gives two bytes a call, and fails the second call.
#[derive(Drop)]
struct Halting<'a> {
    rest: &'a [u8],
    calls: u64,
}

impl<'a> Read for Halting<'a> {
    fn read(&mut self, room: &mut [u8]) -> io::Result<usize> {
        self.calls = self.calls.saturating_add(1);
        if self.calls == 2 {
            return Err(io::Error::from(ErrorKind::Interrupted));
        }
        let most = room.len().min(2);
        self.rest.read(&mut room[..most])
    }
}

#[test]
fn a_failed_read_is_a_fault_and_the_rest_still_comes(rt: HostRuntime) {
    let mut source = StdSource::new(Halting {
        rest: b"abc",
        calls: 0,
    });
    let mut room = [0; 4];
    for (want, held) in [
        (Ok(2), b"ab"),
        (Err(Failed), b"ab"),
        (Ok(1), b"cb"),
        (Ok(0), b"cb"),
    ] {
        assert_eq!(rt; source.take(&mut room), want);
        assert_eq!(rt; room[..2], held[..]);
    }
}

/// Takes each piece whole, counts its flushes, and fails the second one.
#[derive(Drop)]
struct Flushing {
    flushes: u64,
    unflushed: usize,
}

impl Write for Flushing {
    fn write(&mut self, piece: &[u8]) -> io::Result<usize> {
        self.unflushed = self.unflushed.saturating_add(piece.len());
        Ok(piece.len())
    }

    fn flush(&mut self) -> io::Result<()> {
        self.flushes = self.flushes.saturating_add(1);
        if self.flushes == 2 {
            return Err(io::Error::from(ErrorKind::Interrupted));
        }
        self.unflushed = 0;
        Ok(())
    }
}

#[test]
fn each_put_is_flushed_and_a_failed_flush_is_a_fault(rt: HostRuntime) {
    let mut writer = Flushing {
        flushes: 0,
        unflushed: 0,
    };
    let mut sink = StdSink::new(&mut writer);
    for want in [Ok(3), Err(Failed), Ok(3)] {
        assert_eq!(rt; sink.put(b"abc"), want);
    }
    assert_eq!(rt; writer.flushes, 3);
    assert_eq!(rt; writer.unflushed, 0);
}
