//! What a scenario's bytes and notices go over.
ghost use Rattle.std.specs.Bool.{⊤};
ghost use Rattle.am_stream.specs.Link.{Answers, Carries};

/// Carries bytes to the world's side, and notices to the program's own receiver.
pub trait Link: Drop {
    ghost carries: { Carries } = { λ piece came. ⊤ };

    ghost answers: { Answers } = { λ request status read. ⊤ };

    /// Sends a piece and reads it at the other end. Whether just this piece came.
    fn carry(&mut self, piece: &[u8]) -> bool
        ensures { carries piece.now result };

    /// Sends the request of a notice to the receiver, which answers this status, or closes without an answer. Gives the
    /// status that was read of what came back; `None` where none did.
    fn tell(&mut self, request: &[u8], status: Option<u16>) -> Option<u16>
        ensures { answers request.now status result };
}
