//! An intake of which some lines are answered.
ghost use Rattle.std.specs.Prelude.{◌≡◌, ℕ, List, [], IfOk, MatchBool, MatchResult, Option, ⊤};
ghost use Rattle.pf_session.specs.{LineEngine.Chains.Chain, LineEngine.Intakes.AnsweredSoFar, LineEngine.Pieces.Failed};

use crate::line_engine::intake::Intake;
use crate::line_engine::left_off::Pause;
use crate::line_engine::pieces::Reached;
use crate::line_engine::some::{AnswerSome, answer_some_in};
use std::io::{self, Write};

impl Intake {
    /// Answers the lines that end in what was read and not looked at, up to the first one that isn't answered, as [`answer_some_in`] does.
    /// Returns whether it left some. `Err`: a write failed.
    pub(crate) fn answer_some<A: AnswerSome, W: Write, P: Pause>(
        &mut self,
        writer: &mut W,
        answerer: &mut A,
        pause: &P,
    ) -> io::Result<bool>
        ensures caught_up { IfOk result (λ left. MatchBool left ⊤ (self.new.ahead ≡ [])) }
        ensures answered { (input : List ℕ) (start : A) (held : Option (List ℕ)) →
            AnsweredSoFar (Chain A.Takes) input self.old start answerer.old held (W.contents writer.old) →
            MatchResult result
            (λ left. AnsweredSoFar (Chain A.Takes) input self.new start answerer.new held (W.contents writer.new))
            (λ e. Failed (Chain A.Takes) input start answerer.new held (W.contents writer.new)) }
    {
        let answered = answer_some_in(
            &self.piece[self.from..self.to],
            self.line.as_mut_slice(),
            self.kept,
            writer,
            answerer,
            pause,
        );
        match answered {
            Ok(Reached { kept, used }) => {
                self.kept = kept;
                self.from += used;
                Ok(self.from < self.to)
            }
            Err(error) => {
                self.kept = 0;
                Err(error)
            }
        }
    }
}
