//! Streams and listeners whose calls don't wait.

use mio::net::{TcpListener, TcpStream};
use std::io::{self, Read, Write};
use std::net::Shutdown;

/// A stream whose reads and writes don't wait.
pub trait Socket: Read + Write {
    /// Sends from now on at once what is put (TCP_NODELAY).
    fn send_at_once(&self) -> io::Result<()>;

    /// Closes the side that sends. What was put before still goes.
    fn end_sending(&self) -> io::Result<()>;
}

impl Socket for TcpStream {
    fn send_at_once(&self) -> io::Result<()> {
        self.set_nodelay(true)
    }

    fn end_sending(&self) -> io::Result<()> {
        self.shutdown(Shutdown::Write)
    }
}

/// A listener whose accepts don't wait.
pub trait Listener {
    type Stream: Drop;

    /// The next connection, where one waits.
    fn next_stream(&self) -> io::Result<Self::Stream>;
}

impl Listener for TcpListener {
    type Stream = TcpStream;

    fn next_stream(&self) -> io::Result<TcpStream> {
        let (stream, _address) = self.accept()?;
        Ok(stream)
    }
}
