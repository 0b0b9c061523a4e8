//! Lines that a Book answers.
ghost use Rattle.std.specs.Prelude.{◌≡◌, ℕ, List, []};
ghost use Rattle.pf_disk.specs.Disk.{IsImage};
ghost use Rattle.pf_core.specs.{WorldBooks.IsAt, Worlds.{CurrentOpening, idle}};
ghost use Rattle.pf_book.specs.Books.{HoldsLeft, IsOpenable, world_book};
ghost use Rattle.pf_session.specs.{LineEngine.Sessions.IsSession, Serving.{CallsOrShows, Serves}, Telling.IsReplyTo, Laws.Seeing.seen-replied};

use crate::line_engine::{AnswerLine, EngineFault, answer_reader};
use crate::telling::{RunCommands, answer, show, tell, tell_anchors};
use pf_addr::path::Path;
use pf_book::book::Book;
use pf_book::{Chapter, Publisher};
use pf_core::Command;
use pf_disk::Disk;
use pf_line::write_judged;
use pf_rule::Packet;
use std::alloc::Global;
use std::io::{self, Read, Write};

impl<D: Disk + Drop, J: Chapter, S: Publisher<J> + Drop> RunCommands for Book<D, J, S> {
    ghost Runs = { CallsOrShows D.fault_count };

    fn run_command<W: Write>(&mut self, command: Command, writer: &mut W) -> io::Result<()> {
        let reply = self.run(command);
        tell(writer, reply)
    }

    fn judge_packet<W: Write>(&mut self, packet: &Packet, writer: &mut W) -> io::Result<()> {
        write_judged(writer, &self.judge(packet))
    }

    fn show_status<W: Write>(&mut self, writer: &mut W) -> io::Result<()> {
        show(writer, self.status(), 1)
    }

    fn show_anchors<W: Write>(&mut self, path: &Path, writer: &mut W) -> io::Result<()> {
        tell_anchors(writer, self.anchors_below(path))
    }
}

// Each line is answered as it comes.
impl<D: Disk + Drop, J: Chapter, S: Publisher<J> + Drop> AnswerLine for Book<D, J, S> {
    type Waiting = ();

    ghost Waits = { λ lines waiting. lines ≡ [] };

    ghost Takes = { IsReplyTo (CallsOrShows D.fault_count) };

    fn answer_line<W: Write>(
        &mut self,
        alloc: Global,
        line: &[u8],
        writer: &mut W,
    ) -> io::Result<()> {
        answer(alloc, line, writer, self)
    }

    fn none_waiting(_alloc: Global) {}

    fn take_line<W: Write>(
        &mut self,
        alloc: Global,
        _waiting: &mut (),
        line: &[u8],
        writer: &mut W,
    ) -> io::Result<()> {
        self.answer_line(alloc, line, writer)
    }

    fn answer_waiting<W: Write>(
        &mut self,
        _alloc: Global,
        _waiting: &mut (),
        _writer: &mut W,
    ) -> io::Result<()> {
        Ok(())
    }

    ghost takes_seen = { seen-replied (CallsOrShows D.fault_count) };
}

/// Answers the lines of a reader, each with at most one reply, until the reader is at its end.
///
/// The writer is flushed before each read and at the end. A read that was interrupted is made again; there are fewer
/// than 2^62 reads. The line buffer is allocated before anything is read. If there is no memory for a line or for its command, its reply
/// says so. A status says that one session is open. The limits of the Book's opening stay as they are.
///
/// Afterwards, however the session ended, each image of the device holds what a crash then leaves of the opening: with the next generation
/// at most, and with room for another opening if what the last one gave leaves it.
///
/// `Err(Read)`: a read failed, or there were too many; the whole lines before are answered. `Err(Write)`: a write or a flush failed; some
/// front of the last reply may be out. `Err(Memory)`: no memory for the line buffer, and nothing was read or written.
pub fn serve_alone<D: Disk + Drop, J: Chapter, S: Publisher<J> + Drop, R: Read, W: Write>(
    alloc: Global,
    reader: &mut R,
    writer: &mut W,
    book: &mut Book<D, J, S>,
) -> Result<(), EngineFault>
    ensures session { IsSession (Serves D.fault_count) result (R.remaining reader.old) (R.remaining reader.new)
        book.old book.new (W.contents writer.old) (W.contents writer.new) }
    ensures setting { (world_book book.new).setting ≡ (world_book book.old).setting }
    ensures images { (h : CurrentOpening) → IsAt h (world_book book.new) → (c : List ℕ)
        → IsImage (D.seen book.new.disk) (D.unsynced book.new.disk) c → HoldsLeft h idle c }
    ensures openable { IsOpenable D.seen D.unsynced book.new }
{
    let served = answer_reader(alloc, reader, writer, book);
    book.between_calls();
    served
}
