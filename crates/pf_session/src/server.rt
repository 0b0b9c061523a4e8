//! The server: sessions and peers' streams over one Book that all of them share, for any reader and writer.
//!
//! - `gate`: what a session passes before each line.
//! - `caller`: what a session and a stream call.
//! - `line_session`: a session without what belongs to an opening.
//! - `session`: a session's lines, by the Book and the session's seer.
//! - `run`: lines of a session that are run together.
//! - `inquiry`: what may be asked and changes nothing.
//! - `denial`: which lines are denied to a session that may only ask.
//! - `asking`: such a session.
//! - `judging`: a session of whose lines those are answered that ask what happens to a packet, and no others.
//! - `stream`: a peer's messages in groups, by the Book.

mod asking;
mod caller;
mod denial;
mod gate;
mod inquiry;
mod judging;
mod line_session;
mod run;
mod session;
mod stream;

pub use asking::{answer_asking, go_on_asking, go_on_asking_by};
pub use caller::{AskBook, CallBook, Caller};
pub use denial::deny;
pub use gate::{Gate, OpenGate};
pub use inquiry::Inquiry;
pub use judging::go_on_judging;
pub use line_session::LineSession;
pub use session::{continue_session, go_on, go_on_by, serve};
pub use stream::{PeerStream, continue_peer, go_on_peer, go_on_peer_by, serve_peer};
