//! The engine: cuts the bytes of a reader into lines, has each answered, and has the replies written; over whatever answers a line. A session
//! may pause between two lines, and go on later, also by another answerer.

mod answer_line;
mod engine;
mod fault;
mod intake;
pub mod laws;
mod left_off;
mod pieces;
mod some;

pub use answer_line::{AnswerLine, LOOKED_AT};
pub use engine::{answer_reader, go_on, go_on_some};
pub use fault::EngineFault;
pub use intake::Intake;
pub use left_off::{LeftOff, NoPause, Pause};
pub use some::AnswerSome;
