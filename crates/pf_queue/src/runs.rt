//! What can run several jobs together.
ghost use Rattle.std.specs.Prelude.{◌≡◌, ◌≤◌, ℕ, Some, IfOk, IfErr, length, slice_get, vec_len};

/// Runs jobs, one by one or several together. What holds of it between two calls is its type's invariant.
pub trait RunsTogether {
    /// What a caller asks for.
    type Job: Drop;

    /// What the register notes of a job. No value of it is ever made.
    type Entry;

    /// What a caller is told. Want of memory is one of its answers, if it takes any.
    type Answer: Drop;

    /// What is noted of this job.
    ghost entry: { Self.Job → Self.Entry };

    /// This is an answer to the job of which this is noted.
    ghost Answers: { Self.Entry → Self.Answer → Type 0 };

    /// Runs one job.
    fn run_one(&mut self, job: Self::Job) -> Self::Answer
        ensures { Answers (entry job) result };

    /// Runs jobs together, 2 to 64. `Err` hands all of them back: none was run.
    fn run_all(&mut self, jobs: Vec<Self::Job>) -> Result<Vec<Self::Answer>, Vec<Self::Job>>
        requires some { 2 ≤ vec_len jobs }
        requires few { vec_len jobs ≤ 64 }
        ensures each { IfOk result (λ answers. length answers.items ≡ length jobs.items) }
        ensures answered { IfOk result (λ answers. (i : ℕ) (j : Self.Job) (a : Self.Answer) → slice_get jobs.items i ≡ Some j → slice_get answers.items i ≡ Some a → Answers (entry j) a) }
        ensures back { IfErr result (λ left. left.items ≡ jobs.items) };
}
