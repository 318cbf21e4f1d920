//! What is asked of a socket of a connection that goes out.
ghost use Rattle.am_serve.specs.Acts.{Ask, answer_of};

use crate::socket::Socket;
use std::io;

/// A connection that goes out.
pub trait Dialed: Socket {
    /// Whether the connection stands. False: not yet.
    ///
    /// # Errors
    /// The connection failed.
    fn is_connected(&mut self) -> io::Result<bool>
        ensures asks { Self.does self.old (Ask (answer_of result)) self.new };
}
