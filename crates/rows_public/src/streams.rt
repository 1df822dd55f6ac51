//! Streams that fail.
use std::alloc::Global;
use std::io::{self, ErrorKind, Read, Write};

/// What comes after the last byte of an input.
#[derive(Clone, Copy)]
pub(crate) enum End {
    /// Nothing.
    Plain,
    /// A failure, as of a pipe that broke.
    Torn,
    /// A failure, since memory for more is refused.
    Vast,
}

/// An input that gives its bytes one by one and then ends.
#[derive(Drop)]
pub(crate) struct Input<'a> {
    pub(crate) bytes: &'a [u8],
    pub(crate) end: End,
}

impl Read for Input<'_> {
    fn read(&mut self, buf: &mut [u8]) -> io::Result<usize> {
        let Some(place) = buf.first_mut() else {
            return Ok(0);
        };
        match self.bytes.split_first() {
            Some((byte, rest)) => {
                *place = *byte;
                self.bytes = rest;
                Ok(1)
            }
            None => match self.end {
                End::Plain => Ok(0),
                End::Torn => Err(io::Error::from(ErrorKind::BrokenPipe)),
                End::Vast => Err(io::Error::from(ErrorKind::OutOfMemory)),
            },
        }
    }
}

/// An output that has room for so many bytes and then fails. It takes up to seven at once, is interrupted before each time, and
/// has a word for each flush.
#[derive(Drop)]
pub(crate) struct Output {
    room: usize,
    pub(crate) taken: Vec<u8>,
    is_ready: bool,
}

impl Output {
    /// An output with this room.
    pub(crate) fn new(alloc: Global, room: usize) -> Output {
        Output {
            room,
            taken: Vec::new(alloc),
            is_ready: false,
        }
    }
}

impl Write for Output {
    fn write(&mut self, buf: &[u8]) -> io::Result<usize> {
        self.is_ready = !self.is_ready;
        if self.is_ready {
            return Err(io::Error::from(ErrorKind::Interrupted));
        }
        let count = buf.len().min(self.room).min(7);
        if count == 0 && !buf.is_empty() {
            return Err(io::Error::from(ErrorKind::StorageFull));
        }
        self.taken.extend_from_slice(&buf[..count])?;
        self.room -= count;
        Ok(count)
    }

    fn flush(&mut self) -> io::Result<()> {
        Ok(self.taken.extend_from_slice(b"flushed")?)
    }
}
