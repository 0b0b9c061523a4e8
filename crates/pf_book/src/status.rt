//! What a Book says of itself.
ghost use Rattle.std.specs.Prelude.{◌≡◌, ◌<◌, ◌^◌, length, min};
ghost use Rattle.pf_book.specs.{Books.{world_book}, Statuses.{held, status_of, status_with}};
ghost use Rattle.pf_store.specs.Banks.{bank_size};

use crate::book::Book;
use crate::chapter::Chapter;
use pf_core::Durable;
use pf_disk::Disk;
use pf_snap::BANK_HEADER;
use pf_store::ROOM_TO_OPEN;
use pf_view::Publisher;

/// How far a Book has come, and how much it keeps.
#[derive(Clone, Copy)]
pub struct BookStatus {
    /// The epoch of the opening.
    pub epoch: u32,
    /// How many changes there are since the opening, acknowledged or not.
    pub changes: usize,
    /// The tick.
    pub tick: u64,
    /// How many rulesets of rules there are.
    pub rulesets: usize,
    /// How many tables there are.
    pub tables: usize,
    /// How many states there are.
    pub states: usize,
    /// How many bytes of a bank what is kept takes: its header, a snapshot, and the room that is kept free for an opening. 2^64 - 1 stands for
    /// more.
    pub held: u64,
    /// How many bytes a bank has: half of the device.
    pub size: usize,
}

// How many bytes of a bank what is kept takes.
fn held_by(durable: &Durable) -> u64
    ensures { result ≡ min (held durable.now) 18446744073709551615 }
{
    let bytes = BANK_HEADER as u128 + durable.byte_length() + ROOM_TO_OPEN as u128;
    if bytes < 1 << 64 {
        bytes as u64
    } else {
        u64::MAX
    }
}

// The status where this is kept after so many changes, in banks of so many bytes.
fn status_with(durable: &Durable, changes: usize, size: usize) -> BookStatus
    ensures { result ≡ status_with durable.now changes size }
{
    let config = durable.config();
    BookStatus {
        epoch: durable.epoch(),
        changes,
        tick: durable.tick(),
        rulesets: config.ruleset_count(),
        tables: config.table_count(),
        states: durable.states().len(),
        held: held_by(durable),
        size,
    }
}

impl<D: Disk + Drop, J: Chapter, S: Publisher<J> + Drop> Book<D, J, S> {
    /// How far the Book has come, and how much it keeps. It looks at no rule, entry or state, makes no call of the device, and takes no
    /// memory. It is told after a fault too.
    pub fn status(&self) -> BookStatus
        ensures { result ≡ status_of (world_book self.now) (bank_size (length (D.seen self.now.disk))) }
    {
        status_with(self.durable(), self.log_len(), self.disk().size() / 2)
    }
}
