//! What follows from the definitions alone, whoever made the values: of receipts, and of openings after crashes.
ghost use Rattle.std.specs.Prelude.{◌≡◌, ◌⊎◌, ◌^◌, ◌<◌, ◌≤◌, ◌++◌, ◌∷◌, [], ℕ, Bool, All, List, length, map, Ok, Option, Some};
ghost use Rattle.std.specs.List.{AllPairs};
ghost use mathlib.Core.List.{IsPrefix};
ghost use Rattle.pf_disk.specs.Disk.{IsImage};
ghost use Rattle.pf_core.specs.declared.{command.Command.Command, reply.Outcome.Outcome, reply.Reply.Reply, reply.Reply.TheVariants.{Applied, Stored}};
ghost use Rattle.pf_core.specs.{Durable.Changes.{PlainDurable, PlainChange}, WorldBooks.{WorldBook, IsAt, IsFolded, StandsFor}, Worlds.{Setting, CurrentOpening, Doing, Event, crashed, opened, begun, raised, last_epoch, refused_opening, up, down, state_after, IsWorld}};
ghost use Rattle.pf_store.specs.declared.store.fault.{OpenFault.OpenFault, OpenFault.TheVariants.{Memory, Fault, EpochsExhausted}};
ghost use Rattle.pf_store.specs.{Openings.{IsNoLaterThan, IsOfOpening, IsUnopened, LeavesRoom}, Stores.{Holds, IsRoomy}};
ghost use Rattle.pf_book.specs.{Books.HoldsLeft, Groups.{Answered, AreAsAlone, IsAnsweredAsAlone, IsGroupAnswered}, Receipts.{PlainReceipt, ComesAfter, IsAnswered, IsNumberOf}};

/// The receipt that a caller hands in and the one that it gets: the front of the first begins that of the second, and has fewer changes if
/// the call made one; at the second one's reply at least as many changes are acknowledged as at the first one's, and at least as many are
/// shown. A reply's number is that of its receipt, and so many changes are acknowledged then. They stay so at each later call, if each hands
/// in the receipt of the one before.
pub fn receipts()
    ensures begins { (base : PlainDurable) (setting : Setting) (c : Command) (r : Reply) (slip last : PlainReceipt)
        → IsAnswered base setting c r slip (Some last) → IsPrefix last.front slip.front }
    ensures acked { (base : PlainDurable) (setting : Setting) (c : Command) (r : Reply) (slip last : PlainReceipt)
        → IsAnswered base setting c r slip (Some last) → last.acked ≤ slip.acked }
    ensures shown { (base : PlainDurable) (setting : Setting) (c : Command) (r : Reply) (slip last : PlainReceipt)
        → IsAnswered base setting c r slip (Some last) → last.shown ≤ slip.shown }
    ensures fewer { (base : PlainDurable) (setting : Setting) (c : Command) (r : Reply) (slip last : PlainReceipt) (e : PlainChange)
        → IsAnswered base setting c r slip (Some last) → slip.change ≡ Some e → length last.front < length slip.front }
    ensures applied { (base : PlainDurable) (setting : Setting) (c : Command) (seq : ℕ) (o : Outcome) (slip : PlainReceipt) (last : Option PlainReceipt)
        → IsAnswered base setting c (Applied seq o) slip last → (seq ≡ length slip.front) × (seq ≡ slip.acked) }
    ensures stored { (base : PlainDurable) (setting : Setting) (c : Command) (seq : ℕ) (o : Outcome) (slip : PlainReceipt) (last : Option PlainReceipt)
        → IsAnswered base setting c (Stored seq o) slip last → (seq ≡ length slip.front) × (seq ≡ slip.acked) }
{}

/// The same of a group, if it isn't refused whole. Its receipts come one after the other, each of them after the receipt that the caller
/// hands in. A reply's number is that of its receipt, and so many changes are acknowledged then. Where each gets what it gets alone, the
/// replies are those that the commands are due in calls of their own, one by one, or all of them `Stored` in place of `Applied`.
pub fn group_receipts()
    ensures after { (base : PlainDurable) (setting : Setting) (commands : List Command) (answers : List Answered) (last : PlainReceipt)
        → IsGroupAnswered base setting commands (Ok answers) (Some last) → All (λ a. ComesAfter last a.1) answers }
    ensures in_turn { (base : PlainDurable) (setting : Setting) (commands : List Command) (answers : List Answered) (last : Option PlainReceipt)
        → IsGroupAnswered base setting commands (Ok answers) last → AllPairs (λ a b. ComesAfter a.1 b.1) answers }
    ensures numbered { (base : PlainDurable) (setting : Setting) (commands : List Command) (answers : List Answered) (last : Option PlainReceipt)
        → IsGroupAnswered base setting commands (Ok answers) last → All (λ a. IsNumberOf a.0 a.1) answers }
    ensures alone { (base : PlainDurable) (setting : Setting) (commands : List Command) (answers : List Answered) (last : Option PlainReceipt)
        → (a : IsAnsweredAsAlone base setting commands (Ok answers) last) → AreAsAlone a.group.before commands (map (λ a. a.0) answers) }
{}

/// Whatever image a crash leaves, within a call or between two: what an opening of that image gives stands for the world with the crash and
/// the new opening at its end.
pub fn crashes_are_opened()
    ensures { (first : PlainDurable) (world : List Event) (h : CurrentOpening) (doing : Doing) (image : List ℕ) (d : PlainDurable) (setting : Setting) (b : WorldBook)
        → IsWorld first world → state_after (down first) world ≡ up h → HoldsLeft h doing image → Holds image d → d.epoch < last_epoch
        → IsAt (begun setting (raised d)) b → IsFolded b → (n : ℕ) × StandsFor first b ((world ++ crashed doing n ∷ []) ++ opened setting ∷ []) }
{}

/// Between a crash and the opening that succeeds, one may be refused, or be cut short by another crash: whatever image it leaves, what that
/// holds is what is held after the world with the crash and this event (`refused_opening`) at its end. What an opening of that image gives
/// stands for the world with these and the new opening. `refused_openings_are_events` of `pf_store` says the same of each further one.
pub fn refused_openings_come_between()
    ensures held { (first : PlainDurable) (world : List Event) (h : CurrentOpening) (doing : Doing)
        (seen image : List ℕ) (unsynced : ℕ → Bool) (d : PlainDurable)
        → IsWorld first world → state_after (down first) world ≡ up h → ((c : List ℕ) → IsImage seen unsynced c → HoldsLeft h doing c)
        → IsOfOpening seen unsynced image → Holds image d
        → (n : ℕ) × (rose : Bool) × IsWorld first ((world ++ crashed doing n ∷ []) ++ refused_opening rose ∷ [])
        × (state_after (down first) ((world ++ crashed doing n ∷ []) ++ refused_opening rose ∷ []) ≡ down d) }
    ensures opened { (first : PlainDurable) (world : List Event) (h : CurrentOpening) (doing : Doing)
        (seen image : List ℕ) (unsynced : ℕ → Bool) (d : PlainDurable) (setting : Setting) (b : WorldBook)
        → IsWorld first world → state_after (down first) world ≡ up h → ((c : List ℕ) → IsImage seen unsynced c → HoldsLeft h doing c)
        → IsOfOpening seen unsynced image → Holds image d → d.epoch < last_epoch → IsAt (begun setting (raised d)) b → IsFolded b
        → (n : ℕ) × (rose : Bool) × StandsFor first b (((world ++ crashed doing n ∷ []) ++ refused_opening rose ∷ []) ++ opened setting ∷ []) }
{}

/// If an image that a crash leaves has a generation below 2^63 and room for an opening, then only want of memory, a fault of the device or
/// an epoch that is the last one keeps it from being opened. An opening leaves as much room as it found, and the clause `device` of
/// `Book::run` says the same of a call.
pub fn left_images_are_refused_by_chance_alone()
    ensures chance { (h : CurrentOpening) (doing : Doing) (image : List ℕ) (generation : ℕ) (fault : OpenFault) → HoldsLeft h doing image
        → IsNoLaterThan generation image → generation < 2 ^ 63 → LeavesRoom image → IsUnopened fault image
        → (fault ≡ Memory) ⊎ ((fault ≡ Fault) ⊎ ((fault ≡ EpochsExhausted) × (d : PlainDurable) × Holds image d × (d.epoch ≡ last_epoch))) }
    ensures room { (size : ℕ) (d : PlainDurable) → IsRoomy size d → IsRoomy size (raised d) }
{}
