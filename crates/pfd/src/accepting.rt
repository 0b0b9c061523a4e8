//! Which connections are served: what becomes of each result of an accept. It knows no socket.
ghost use Rattle.std.specs.Prelude.{◌≡◌};
ghost use Rattle.pfd.specs.Accepting.{FindsNext, IsTaken, accepts_more, new_acceptor};

use pf_session::Pause;
use std::io::{self, ErrorKind};

/// What connections come from.
pub trait Accept {
    /// A connection.
    type Connection;

    /// Waits for the next connection. An error of the kind `ConnectionAborted` is of that connection alone; after one of the kind
    /// `Interrupted` there was none for a while.
    fn accept(&self) -> io::Result<Self::Connection>;

    /// Takes note that a connection that was accepted is served no more.
    fn release(&self, _connection: &Self::Connection) {}
}

/// What to do after an accept.
pub(crate) enum Taken<C> {
    /// Serve this connection as the session of this number.
    Serve(C, u32),
    /// Accept again: the client gave the connection up before it was accepted, or there was none for a while.
    Again,
    /// Accept no more: the accept failed.
    End,
}

/// How many connections were accepted, of how many (0: without end), and whether an accept failed.
#[derive(Drop)]
pub(crate) struct Acceptor {
    sessions: u32,
    accepted: u32,
    has_failed: bool,
}

impl Acceptor {
    pub(crate) fn new(sessions: u32) -> Acceptor
        ensures { result ≡ new_acceptor sessions }
    {
        Acceptor {
            sessions,
            accepted: 0,
            has_failed: false,
        }
    }

    /// Whether an accept failed.
    pub(crate) fn has_failed(&self) -> bool
        ensures { result ≡ self.now.has_failed }
    {
        self.has_failed
    }

    /// Whether another connection is accepted.
    pub(crate) fn accepts_more(&self) -> bool
        ensures { result ≡ accepts_more self.now }
    {
        !self.has_failed && (self.sessions == 0 || self.accepted < self.sessions)
    }

    // Takes note of what an accept gave.
    fn take<C>(&mut self, accepted: io::Result<C>) -> Taken<C>
        ensures { IsTaken accepted self.old self.new result }
    {
        match accepted {
            Ok(connection) => {
                self.accepted = self.accepted.saturating_add(1);
                Taken::Serve(connection, self.accepted)
            }
            Err(error) => {
                if error.kind() == ErrorKind::ConnectionAborted
                    || error.kind() == ErrorKind::Interrupted
                {
                    Taken::Again
                } else {
                    self.has_failed = true;
                    Taken::End
                }
            }
        }
    }

    /// The next connection, with the number of its session. `None`: an accept failed, now or before, or as many connections as there may be
    /// were accepted, or a pause is due.
    pub(crate) fn next<A: Accept, P: Pause>(
        &mut self,
        listener: &A,
        pause: &P,
    ) -> Option<(A::Connection, u32)>
        ensures { FindsNext (P.may_pause pause.now) self.old self.new result }
    {
        if !self.accepts_more() {
            return None;
        }
        for _ in 0..u64::MAX {
            if pause.is_due() {
                return None;
            }
            match self.take(listener.accept()) {
                Taken::Serve(connection, session) => return Some((connection, session)),
                Taken::Again => {}
                Taken::End => return None,
            }
        }
        // 2^64 clients gave up: no machine comes here
        self.has_failed = true;
        None
    }
}
