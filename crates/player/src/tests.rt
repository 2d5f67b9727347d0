// The player by its arguments, on long files, and on readers and writers that move little at a time, are interrupted, or fail.
use crate::asked;
use playing::{Asked, Halt, carry_out, play};
use std::alloc::Global;
use std::env::{Env, FillError};
use std::io::{self, BufWriter, Error, ErrorKind, Read, Write};
use std::test::Fail;

// A reader of these bytes, at most `size` of them at a time. Every other call is interrupted; of the others so many are good, and the next fails.
#[derive(Drop)]
struct Source<'a> {
    left: &'a [u8],
    size: usize,
    interrupted: bool,
    good: usize,
}

impl<'a> Source<'a> {
    fn new(left: &'a [u8], size: usize, good: usize) -> Source<'a> {
        Source {
            left,
            size,
            interrupted: false,
            good,
        }
    }
}

impl Read for Source<'_> {
    fn read(&mut self, buffer: &mut [u8]) -> io::Result<usize> {
        self.interrupted = !self.interrupted;
        if self.interrupted {
            return Err(ErrorKind::Interrupted.into());
        }
        if self.good == 0 {
            return Err(Error::other("the reader fails"));
        }
        self.good -= 1;
        let n = self.size.min(buffer.len()).min(self.left.len());
        let (piece, left) = self.left.split_at(n);
        buffer[..n].copy_from_slice(piece);
        self.left = left;
        Ok(n)
    }
}

// A writer that keeps what it is given, and is like the reader in all else.
#[derive(Drop)]
struct Sink {
    kept: Vec<u8>,
    size: usize,
    interrupted: bool,
    good: usize,
}

impl Sink {
    fn new(alloc: Global, size: usize, good: usize) -> Sink {
        Sink {
            kept: Vec::new(alloc),
            size,
            interrupted: false,
            good,
        }
    }
}

impl Write for Sink {
    fn write(&mut self, bytes: &[u8]) -> io::Result<usize> {
        self.interrupted = !self.interrupted;
        if self.interrupted {
            return Err(ErrorKind::Interrupted.into());
        }
        if self.good == 0 {
            return Err(Error::other("the writer fails"));
        }
        self.good -= 1;
        let n = self.size.min(bytes.len());
        self.kept.extend_from_slice(&bytes[..n])?;
        Ok(n)
    }

    fn flush(&mut self) -> io::Result<()> {
        if self.good == 0 {
            return Err(Error::other("the writer fails"));
        }
        Ok(())
    }
}

// A file of an admission with the number 0 and this label, and then so many withdrawals of task 7.
fn file_of(alloc: Global, label: &str, withdrawals: u16) -> io::Result<Vec<u8>> {
    let mut file = Vec::new(alloc);
    file.write_all(b"RAK\0\x01F\x01")?;
    file.write_all(&withdrawals.saturating_add(1).to_be_bytes())?;
    file.write_all(b"A\0\0\0\0\0\0\0\x01\0\0\0\x01")?;
    file.write_all(&[u8::try_from(label.len()).unwrap_or(u8::MAX)])?;
    file.write_all(label.as_bytes())?;
    for _ in 0..withdrawals {
        file.write_all(b"W\0\0\0\x07")?;
    }
    Ok(file)
}

// Its text: no task may have the number 0, and no task 7 has a seat.
fn text_of(alloc: Global, label: &str, withdrawals: u16) -> io::Result<Vec<u8>> {
    let mut text = Vec::new(alloc);
    writeln!(text, "0 A {label} R3")?;
    for index in 1..=withdrawals {
        writeln!(text, "{index} W 7 R9")?;
    }
    Ok(text)
}

// How a run through a buffer of 64 bytes ends, and all that it has written, in the writer and in the buffer.
fn played(
    alloc: Global,
    mut source: Source<'_>,
    sink: Sink,
) -> io::Result<(Result<(), Halt>, Vec<u8>)> {
    let mut out = BufWriter::with_capacity(alloc, 64, sink)?;
    let ended = play(alloc, &mut source, &mut out);
    let (sink, waiting) = out.into_parts();
    let mut written = sink.kept;
    written.extend_from_slice(waiting.as_slice())?;
    Ok((ended, written))
}

fn text_played(alloc: Global, mut file: &[u8]) -> Result<Vec<u8>, Halt> {
    let mut out = BufWriter::new(alloc, Vec::new(alloc)).map_err(Halt::Writing)?;
    play(alloc, &mut file, &mut out)?;
    let (text, _) = out.into_parts();
    Ok(text)
}

// 13,000 withdrawals, and a file of as many bytes as there may be.
#[test]
fn long_files(rt: HostRuntime) -> Result<(), Fail> {
    for (withdrawals, length) in [(13_000, 65_026), (13_102, 65_536)] {
        let file = file_of(rt.alloc(), "saw", withdrawals)?;
        assert_eq!(rt; file.len(), length);
        let text = text_played(rt.alloc(), file.as_slice())?;
        let wanted = text_of(rt.alloc(), "saw", withdrawals)?;
        assert!(rt;
            text.as_slice() == wanted.as_slice(),
            "{withdrawals} withdrawals"
        );
    }
    Ok(())
}

// One byte more than there may be.
#[test]
fn too_long(rt: HostRuntime) -> Result<(), Fail> {
    let file = file_of(rt.alloc(), "saws", 13_102)?;
    assert_eq!(rt; file.len(), 65_537);
    let text = text_played(rt.alloc(), file.as_slice())?;
    assert_eq!(rt; text.as_slice(), b"F 11 65536\n".as_slice());
    Ok(())
}

// A reader that gives a byte at a time, or seven, or all at once, and a writer that takes as many.
#[test]
fn little_at_a_time(rt: HostRuntime) -> Result<(), Fail> {
    let file = file_of(rt.alloc(), "saw", 40)?;
    let wanted = text_of(rt.alloc(), "saw", 40)?;
    for size in [1, 7, 1000] {
        let source = Source::new(file.as_slice(), size, 1000);
        let (ended, text) = played(rt.alloc(), source, Sink::new(rt.alloc(), size, 1000))?;
        ended?;
        assert!(rt; text.as_slice() == wanted.as_slice(), "{size} at a time");
    }
    Ok(())
}

// A reader that fails at its first read, at its second, and so on, the last of which finds no more bytes: nothing is written.
#[test]
fn reads_fail(rt: HostRuntime) -> Result<(), Fail> {
    let file = file_of(rt.alloc(), "saw", 40)?;
    for good in 0..34 {
        let source = Source::new(file.as_slice(), 7, good);
        let (ended, text) = played(rt.alloc(), source, Sink::new(rt.alloc(), 64, 1000))?;
        assert!(rt;
            matches!(ended, Err(Halt::Reading(_))),
            "after {good} reads"
        );
        assert!(rt; text.is_empty(), "after {good} reads");
    }
    Ok(())
}

// A writer that fails at its first block, at its second, and so on to the flush behind the seventh: what is written by then is the front of the text.
#[test]
fn writes_fail(rt: HostRuntime) -> Result<(), Fail> {
    let file = file_of(rt.alloc(), "saw", 40)?;
    let wanted = text_of(rt.alloc(), "saw", 40)?;
    for good in 0..8 {
        let source = Source::new(file.as_slice(), 1000, 1000);
        let (ended, text) = played(rt.alloc(), source, Sink::new(rt.alloc(), 64, good))?;
        assert!(rt;
            matches!(ended, Err(Halt::Writing(_))),
            "after {good} blocks"
        );
        assert!(rt; wanted.starts_with(text.as_slice()), "after {good} blocks");
    }
    Ok(())
}

// A writer that takes nothing.
#[test]
fn writes_of_nothing(rt: HostRuntime) -> Result<(), Fail> {
    let file = file_of(rt.alloc(), "saw", 40)?;
    let source = Source::new(file.as_slice(), 1000, 1000);
    let (ended, _) = played(rt.alloc(), source, Sink::new(rt.alloc(), 0, 1000))?;
    let kind = match ended {
        Err(Halt::Writing(e)) => Some(e.kind()),
        _ => None,
    };
    assert_eq!(rt; kind, Some(ErrorKind::WriteZero));
    Ok(())
}

// The arguments of a program, its name first.
#[derive(Clone, Copy)]
struct Arguments<'a>(&'a [&'a str]);

impl Env for Arguments<'_> {
    fn arg(&self, i: usize, room: &mut [u8]) -> Result<usize, FillError> {
        let argument = self.0.get(i).ok_or(FillError::NotPresent)?.as_bytes();
        if argument.len() > room.len() {
            return Err(FillError::TooLong);
        }
        room[..argument.len()].copy_from_slice(argument);
        Ok(argument.len())
    }

    fn var(&self, _name: &str, _room: &mut [u8]) -> Result<usize, FillError> {
        Err(FillError::NotPresent)
    }

    fn var_at(&self, _i: usize, _room: &mut [u8]) -> Result<usize, FillError> {
        Err(FillError::NotPresent)
    }
}

// The first argument alone, whole and as it stands, asks for a text.
#[test]
fn first_argument_asks(rt: HostRuntime) -> Result<(), Fail> {
    let all: [(&[&str], Asked); 8] = [
        (&["player", "--help"], Asked::Help),
        (&["player", "--version", "--help"], Asked::Version),
        (&[], Asked::Play),
        (&["player"], Asked::Play),
        (&["--help"], Asked::Play),
        (&["player", "line.rak", "--help"], Asked::Play),
        (&["player", "--helpful"], Asked::Play),
        (&["player", "--help--help--help"], Asked::Play),
    ];
    for (arguments, wanted) in all {
        assert_eq!(rt; asked(&Arguments(arguments)), wanted);
    }
    Ok(())
}

// A text that is asked for is written, and nothing is read.
#[test]
fn version_told(rt: HostRuntime) -> Result<(), Fail> {
    let file = file_of(rt.alloc(), "saw", 1)?;
    let mut left = file.as_slice();
    let mut out = BufWriter::new(rt.alloc(), Vec::new(rt.alloc()))?;
    carry_out(rt.alloc(), Asked::Version, &mut left, &mut out)?;
    assert_eq!(rt; left.len(), file.len());
    let (text, _) = out.into_parts();
    assert_eq!(rt;
        text.as_slice(),
        b"player 1.0, for rack files of version 1\n".as_slice()
    );
    Ok(())
}
