//! Sessions: lines come from a reader, and each gets a reply.
//!
//! - `line_engine`: cuts what a reader gives into lines and has each answered. It knows bytes, lines and streams, but no command, reply or
//!   Book.
//! - `telling`: answers a line for whatever runs commands (`RunCommands`).
//! - `engine`: the lines of one reader, by a `Book` of `pf_book`, one history over a device.
//! - `server`: the lines of many readers at once, and peers' streams, by one Book that they share. Each session judges packets by a seer of
//!   its own, and waits for the Book only with its other commands. A session may be one that asks and changes nothing.
//! - `renewing`: one opening after the other, in one process.
//! - `laws`: what follows for a peer's export that a Book is given, and for what replies say to sessions and peers.
//!
//! The crate knows no text of a command or a reply, which are `pf_line`'s, but `err gone`, `err denied`, and the words with which questions
//! begin. It doesn't judge, compare, change or keep rules, tables and states itself: each command goes to a Book. It knows no words of a
//! program, no files and no sockets.
//!
//! Proved: a session's bytes are the replies to its lines in order, and the Book gets the calls that they mean, however the session ends
//! (`serve_alone`, `continue_session`, `continue_peer`); and a session that may only ask leaves the Book as it was (`answer_asking`). A session
//! may pause in one opening and go on in the next, and so it is over all of them (`go_on`, `laws::sessions_go_on`); what the next opening
//! gives is what was acknowledged before (`renew`). In between it may have its questions about packets answered alone (`go_on_judging`,
//! `reopen`).
//! Only tests of other crates show that memory runs out only if a growth was refused, that the writer is flushed before each read, and
//! that no other calls are made.
//!
//! Read `specs/Serving.antt` first: which calls lines come to. Then `specs/LineEngine/Sessions.antt`: what a session read and wrote.
#![tactic(auto)]

mod engine;
pub mod laws;
pub mod line_engine;
mod renewing;
mod server;
mod telling;

pub use engine::serve_alone;
pub use line_engine::{EngineFault, LeftOff, NoPause, Pause};
pub use renewing::{cover_all, renew, reopen};
pub use server::{
    AskBook, CallBook, Caller, Gate, Inquiry, LineSession, OpenGate, PeerStream, answer_asking,
    continue_peer, continue_session, deny, go_on, go_on_asking, go_on_asking_by, go_on_by,
    go_on_judging, go_on_peer, go_on_peer_by, serve, serve_peer,
};
