//! Who answers the clients.
ghost use Rattle.std.specs.Prelude.{ℕ, List, Bool, ⊤};
ghost use Rattle.am_serve.specs.declared.host.Verdict.{Verdict};

/// What became of a piece of a request.
#[derive(Drop)]
pub enum Verdict {
    /// The request isn't whole yet.
    Undecided,
    /// The whole reply. No more pieces of this connection are taken.
    Reply(Vec<u8>),
    /// The request is whole, and its reply comes later. No more pieces of this connection are taken.
    Later,
    /// The host has no such connection any more.
    Gone,
}

/// Who answers: what a connection brings goes to it piece by piece, under the connection's number.
pub trait Host {
    // The host was this, opened a connection of this number, said whether it takes it, and is that.
    ghost opens: { Self → ℕ → Bool → Self → Type 0 } = { λ _ _ _ _. ⊤ };

    // The host was this, took a piece of the connection of this number, gave this verdict, and is that.
    ghost takes: { Self → ℕ → List ℕ → Verdict → Self → Type 0 } = { λ _ _ _ _ _. ⊤ };

    // The host was this, let go of the connection of this number, and is that.
    ghost closes: { Self → ℕ → Self → Type 0 } = { λ _ _ _. ⊤ };

    /// Opens a connection. False: the host doesn't take it, and knows nothing of it.
    fn open(&mut self, connection: u64) -> bool
        ensures { opens self.old connection result self.new };

    /// Takes the next bytes that the connection brought.
    fn take(&mut self, connection: u64, piece: &[u8]) -> Verdict
        ensures { takes self.old connection piece.now result self.new };

    /// Lets go of a connection whose request stayed undecided.
    fn close(&mut self, connection: u64)
        ensures { closes self.old connection self.new };
}
