//! The register of the jobs, which exists in proofs alone. At run time it is how many there were.
ghost use Rattle.std.specs.Prelude.{◌≡◌, ◌<◌, ◌^◌, [], Some, IfSome, slice_get};
ghost use Rattle.pf_queue.specs.Numbers.{head_of, IsNumbered};

use crate::runs::RunsTogether;
use logbook::{Gain, Offer, Plain, Play, Rule, Seen, Start, Word};
use std::marker::{Brand, Model, PhantomData};

/// Names one register, so that a type can say by which one its jobs are numbered. A program picks it once, when it has the new register.
pub trait Numbering {
    ghost use Rattle.logbook.specs.Pages.{Book};

    /// Which register numbers the jobs.
    ghost register: { Book };
}

impl Numbering for Brand {
    ghost register = { record { number = 0; log_name = 0; cells_name = 0 } };
}

/// The rule: the word says how many jobs there were.
pub struct Counts;

impl<E> Rule<E, u64> for Counts {
    ghost use Rattle.std.specs.Prelude.{[]};
    ghost use base.Fml.{ftrue};
    ghost use Rattle.pf_queue.specs.Numbers.{IsKept};

    ghost holds = { λ cells log. IsKept cells log };

    ghost first = { [] };

    ghost hinted = { λ n log. Unit {0} };

    ghost shows = { λ log. [] };

    ghost keeps = { λ names log. ftrue };

    ghost moves = { λ ask before after answer. Unit {0} };
}

/// Callers trade nothing.
pub struct NoGain;

impl<E> Gain<E, u64> for NoGain {
    ghost use base.Fml.{ftrue};

    ghost after = { λ names about answer. ftrue };
}

/// A job is added.
pub struct Adding;

impl<E> Play<E, u64> for Adding {
    ghost use Rattle.pf_queue.specs.Numbers.{Adds};

    ghost then = { Adds };
}

/// What is noted of a job of `B`.
pub struct Noting<B: RunsTogether> {
    of: PhantomData<B>,
}

impl<B: RunsTogether> Plain<B::Job, B::Entry, u64> for Noting<B> {
    ghost use Rattle.std.specs.Prelude.{None};

    ghost ask = { B.entry };

    ghost state = { λ job. None };
}

/// A register with no job and no name yet. Contracts see which one it is.
pub struct NewRegister<E> {
    head: Word<E, u64, Counts>,
    seen: Seen<E, u64, Counts>,
}

impl<E> Model for NewRegister<E> {
    ghost use Rattle.std.specs.Prelude.{◌≡◌};
    ghost use Rattle.logbook.specs.Pages.{Book};
    ghost use Rattle.pf_queue.specs.Numbers.{head_of};

    ghost Value = { Book };

    ghost view = { λ r. r.seen.book };

    ghost invariant = { λ r. r.head ≡ head_of r.seen.book };
}

impl<E> NewRegister<E> {
    /// A register of its own. It takes no memory.
    pub fn open() -> NewRegister<E> {
        let (seen, mut first, _second) = Seen::open(Start::alone(), 0, 0);
        NewRegister {
            head: Word::tracked(0, &mut first),
            seen,
        }
    }

    // Its word, and its beginning.
    fn parts(self) -> (Word<E, u64, Counts>, Seen<E, u64, Counts>)
        ensures head { result.0 ≡ head_of self }
        ensures seen { result.1.book ≡ self }
    {
        let NewRegister { head, seen } = self;
        (head, seen)
    }
}

impl<E> Drop for NewRegister<E> {
    fn drop(self) {
        let Self { head: _, seen: _ } = self;
    }
}

/// The register of the jobs that were handed in.
pub(crate) struct Register<K: Numbering, B: RunsTogether> {
    head: Word<B::Entry, u64, Counts>,
    seen: Seen<B::Entry, u64, Counts>,
    of: PhantomData<K>,
}

impl<K: Numbering, B: RunsTogether> Model for Register<K, B> {
    ghost use Rattle.std.specs.Prelude.{◌≡◌};
    ghost use Rattle.logbook.specs.Pages.{Book};
    ghost use Rattle.pf_queue.specs.Numbers.{head_of};

    ghost Value = { Book };

    ghost view = { λ r. r.seen.book };

    ghost invariant = { λ r. (r.head ≡ head_of K.register) × (r.seen.book ≡ K.register) };
}

impl<K: Numbering, B: RunsTogether> Drop for Register<K, B> {
    fn drop(self) {
        let Self {
            head: _,
            seen: _,
            of: _,
        } = self;
    }
}

/// A number, and a beginning of the register in which a job has it.
pub(crate) struct Number<K: Numbering, B: RunsTogether> {
    number: u64,
    seen: Seen<B::Entry, u64, Counts>,
    of: PhantomData<K>,
}

impl<K: Numbering, B: RunsTogether> Model for Number<K, B> {
    ghost use Rattle.std.specs.Prelude.{◌≡◌};
    ghost use Rattle.pf_queue.specs.Numbers.{PlainNumber};

    ghost Value = { PlainNumber B.Entry };

    ghost view = { λ n. record { number = n.number; log = n.seen.log } };

    ghost invariant = { λ n. n.seen.book ≡ K.register };
}

impl<K: Numbering, B: RunsTogether> Drop for Number<K, B> {
    fn drop(self) {
        let Self {
            number: _,
            seen: _,
            of: _,
        } = self;
    }
}

impl<K: Numbering, B: RunsTogether> Register<K, B> {
    /// A new register under its name.
    pub(crate) fn of(new: NewRegister<B::Entry>) -> Register<K, B>
        requires { new ≡ K.register }
    {
        let (head, seen) = new.parts();
        Register {
            head,
            seen,
            of: PhantomData,
        }
    }

    /// Adds a job under this number. `None`: the number isn't the next one.
    pub(crate) fn add(&self, number: u64, job: &B::Job) -> Option<Number<K, B>>
        requires { number < 2 ^ 62 }
        ensures { IfSome result (λ n. IsNumbered n.log n.number (B.entry job.now)) }
    {
        let mut seen = self.seen.again();
        let mut offer: Offer<B::Entry, u64, Counts, NoGain> = seen.plain::<
            NoGain,
            B::Job,
            Noting<B>,
        >(job);
        let mut pen = seen.no_pen();
        let found = self
            .head
            .compare_exchange::<Adding, NoGain>(
                number,
                number + 1,
                &mut seen,
                &mut offer,
                &mut pen,
            );
        if found != number {
            return None;
        }
        Some(Number {
            number,
            seen,
            of: PhantomData,
        })
    }
}

impl<K: Numbering, B: RunsTogether> Number<K, B> {
    /// The number.
    pub(crate) fn number(&self) -> u64
        ensures { result ≡ self.now.number }
    {
        self.number
    }

    /// The same number once more.
    pub(crate) fn again(&self) -> Number<K, B>
        ensures { result ≡ self.now }
    {
        Number {
            number: self.number,
            seen: self.seen.again(),
            of: PhantomData,
        }
    }

    /// Two that are equal are of one job.
    pub(crate) fn agrees(&self, other: &Number<K, B>)
        requires { self.now.number ≡ other.now.number }
        ensures { (x y : B.Entry) → IsNumbered self.now.log self.now.number x → IsNumbered other.now.log other.now.number y → x ≡ y }
    {
        let mut both = self.seen.again();
        both.learn(&other.seen);
    }
}
