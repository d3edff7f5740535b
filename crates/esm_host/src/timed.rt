// A connection whose reads and writes keep a limit of time.
use crate::deadline::Deadline;
use std::io;
use std::io::{Read, Write};
use std::net::OpenStream;
use std::rt::Clock;

/// A connection whose reads and writes wait no longer than until a deadline.
#[derive(Drop)]
pub struct Timed<'a, R: Clock, S: OpenStream + Drop> {
    pub rt: &'a R,
    pub stream: S,
    pub deadline: Deadline,
}

impl<'a, R: Clock, S: OpenStream + Read + Drop> Read for Timed<'a, R, S> {
    fn read(&mut self, into: &mut [u8]) -> io::Result<usize> {
        let left = self.deadline.left(self.rt)?;
        self.stream.set_read_timeout(Some(left))?;
        self.stream.read(into)
    }
}

impl<'a, R: Clock, S: OpenStream + Write + Drop> Write for Timed<'a, R, S> {
    fn write(&mut self, from: &[u8]) -> io::Result<usize> {
        let left = self.deadline.left(self.rt)?;
        self.stream.set_write_timeout(Some(left))?;
        self.stream.write(from)
    }

    fn flush(&mut self) -> io::Result<()> {
        self.stream.flush()
    }
}
