//! A reader and a writer that fail, and that know of each other.
use std::cell::Cell;
use std::io;
use std::io::{ErrorKind, Read, Write};

/// Gives its bytes in pieces, and one error in their midst.
#[derive(Drop)]
pub struct Pieces<'a> {
    pub rest: &'a [u8],
    pub most: usize,
    /// So many reads go well before the one that fails.
    pub fails_after: Option<usize>,
    pub kind: ErrorKind,
    /// How many bytes were written and are held back.
    pub held: &'a Cell<usize>,
}

impl Read for Pieces<'_> {
    fn read(&mut self, buf: &mut [u8]) -> io::Result<usize> {
        // Whoever waits for an answer sends no more until it is there.
        if self.held.get() > 0 {
            return Err(ErrorKind::WouldBlock.into());
        }
        if let Some(reads) = self.fails_after {
            self.fails_after = reads.checked_sub(1);
            if reads == 0 {
                return Err(self.kind.into());
            }
        }
        let count = buf.len().min(self.rest.len()).min(self.most);
        buf[..count].copy_from_slice(&self.rest[..count]);
        self.rest = &self.rest[count..];
        Ok(count)
    }
}

/// Takes so many bytes, and then none.
#[derive(Drop)]
pub struct Taker<'a> {
    pub taken: Vec<u8>,
    pub room: usize,
    /// How many bytes were written and are held back.
    pub held: &'a Cell<usize>,
}

impl Write for Taker<'_> {
    fn write(&mut self, buf: &[u8]) -> io::Result<usize> {
        let count = buf.len().min(self.room);
        if count == 0 {
            return Err(ErrorKind::BrokenPipe.into());
        }
        self.taken.extend_from_slice(&buf[..count])?;
        self.room -= count;
        self.held.set(self.held.get().saturating_add(count));
        Ok(count)
    }

    fn flush(&mut self) -> io::Result<()> {
        self.held.set(0);
        Ok(())
    }
}
