//! Laws of what is held. Each function does nothing; its clauses are what is proved.
ghost use Rattle.std.specs.Prelude.{◌≡◌, ◌⊎◌, ◌↔◌, ◌+◌, ◌^◌, ◌<◌, ◌≤◌, Bool, true, List, [], ◌∷◌, ◌++◌, ℕ, length};
ghost use Rattle.pf_disk.specs.Disk.{IsImage};
ghost use Rattle.std.specs.List.{list_all};
ghost use Rattle.pf_snap.specs.{Banks.bank_size, declared.header.TheConstants.BANK_HEADER};
ghost use Rattle.pf_core.specs.{Durable.{Changes.{PlainDurable, PlainChange, after}, Forms.durable_length}, Laws.Durable.IsWithin, Worlds.{down, Event, refused_opening, last_epoch, raised, state_after, IsWorld}};
ghost use Rattle.pf_store.specs.declared.{limits.TheConstants.{AROUND, OPENING_RECORD, ROOM_KEPT, ROOM_TO_OPEN}, store.fault.{OpenFault.OpenFault, OpenFault.TheVariants.{Memory, Fault}}};
ghost use Rattle.pf_store.specs.{Groups.{can_be_wanted, is_group, made_all}, Lengths.payload_length, Rooms.group_fits, Stores.{FindsRoom, HasRoom, Holds, IsRoomy, left_by_all}, StoreFaults.SaysNone, Openings.{IsFull, IsOfOpening, IsUnopened, LeavesRefused, generation_of}};

/// An image holds at most one state of what is kept.
pub fn image_holds_one_state()
    ensures { (image : List ℕ) (d e : PlainDurable) → Holds image d → Holds image e → d ≡ e }
{}

/// An image that holds a state by a generation below 2^63 is never refused as one that holds none.
pub fn held_state_is_found()
    ensures { (image : List ℕ) (fault : OpenFault) (d : PlainDurable) (held : Holds image d) → generation_of image d held < 2 ^ 63
        → IsUnopened fault image → ¬ SaysNone fault }
{}

/// A state that is held by a generation below 2^63 fails to open only when out of memory or by a fault of the device, if its epoch isn't
/// the last one and an opening's record has room in this bank or in the other. There is room if a bank has 56 bytes left after a snapshot
/// of the state in the newest version. A bank has 56 left if it has 64 left after a snapshot in the version of the bank that holds the
/// state, which may be older. A state with the next epoch leaves as much room.
pub fn state_with_room_is_refused_by_chance_alone()
    ensures chance { (image : List ℕ) (fault : OpenFault) (d : PlainDurable) (held : Holds image d) → generation_of image d held < 2 ^ 63
        → d.epoch < last_epoch → ¬ IsFull image d → IsUnopened fault image → (fault ≡ Memory) ⊎ (fault ≡ Fault) }
    ensures room { (image : List ℕ) (d : PlainDurable) → IsRoomy (bank_size (length image)) d → ¬ IsFull image d }
    ensures own { (image : List ℕ) (d : PlainDurable) (held : Holds image d)
        → BANK_HEADER + durable_length held.content.version d + ROOM_TO_OPEN ≤ bank_size (length image) → IsRoomy (bank_size (length image)) d }
    ensures next { (size : ℕ) (d : PlainDurable) → IsRoomy size d → IsRoomy size (raised d) }
{}

/// An opening that is refused, or cut short by a crash, is an event (`refused_opening`), whatever image it leaves: that one holds what an
/// image from the opening's start did, perhaps with the next epoch. After a world at whose end each image of the device holds one state, it
/// holds what the world leaves with this event at its end.
pub fn refused_openings_are_events()
    ensures event { (seen image : List ℕ) (unsynced : ℕ → Bool) (d : PlainDurable) → IsOfOpening seen unsynced image → Holds image d
        → LeavesRefused seen unsynced d }
    ensures world { (first : PlainDurable) (world : List Event) (seen image : List ℕ) (unsynced : ℕ → Bool) (before d : PlainDurable)
        → IsWorld first world → state_after (down first) world ≡ down before → ((c : List ℕ) → IsImage seen unsynced c → Holds c before)
        → IsOfOpening seen unsynced image → Holds image d → (rose : Bool) × IsWorld first (world ++ refused_opening rose ∷ [])
        × (state_after (down first) (world ++ refused_opening rose ∷ []) ≡ down d) }
{}

/// What is held is within all limits, whatever bytes hold it.
pub fn held_state_is_within_limits()
    ensures { (image : List ℕ) (d : PlainDurable) → Holds image d → IsWithin d }
{}

/// A group fits exactly if its payload has room.
pub fn group_fits_where_its_record_does()
    ensures { (size : ℕ) (before next : PlainDurable) (es : List PlainChange)
        → (group_fits size before next es ≡ true) ↔ HasRoom size before next (payload_length (made_all es)) }
{}

/// A group of changes leaves what they leave one after the other.
pub fn group_of_changes_leaves_what_they_do()
    ensures { (d : PlainDurable) (es : List PlainChange) → left_by_all d (made_all es) ≡ after d es }
{}

/// A group of changes that commands can want has bytes if banks, of a size that a device may have, have room for a payload of its length.
pub fn what_can_be_wanted_has_bytes()
    ensures { (size : ℕ) (before next : PlainDurable) (es : List PlainChange) → size < 2 ^ 32 → is_group es ≡ true → list_all can_be_wanted es ≡ true
        → HasRoom size before next (payload_length (made_all es)) → FindsRoom size before next es }
{}

/// A record takes 6 bytes besides its payload, and that of an opening 12. A save leaves 64 bytes after a snapshot as room for openings, and
/// a bank has 56 of these left at any time.
pub fn the_rooms_of_records()
    ensures around { AROUND ≡ 6 }
    ensures opening { OPENING_RECORD ≡ 12 }
    ensures to_open { ROOM_TO_OPEN ≡ 64 }
    ensures kept { ROOM_KEPT ≡ 56 }
{}
