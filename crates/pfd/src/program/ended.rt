//! What the program says of a session.
ghost use Rattle.std.specs.Prelude.{◌≡◌};
ghost use Rattle.pfd.specs.Program.{ended};

use pf_session::EngineFault;
use pfd_files::Fault;

/// A session's end, with its fault as the program says it.
pub(crate) fn session_end(session: Result<(), EngineFault>) -> Result<(), Fault>
    ensures { result ≡ ended session }
{
    match session {
        Ok(()) => Ok(()),
        Err(EngineFault::Read) => Err(Fault::Input),
        Err(EngineFault::Write) => Err(Fault::Output),
        Err(EngineFault::Memory) => Err(Fault::Memory),
    }
}
