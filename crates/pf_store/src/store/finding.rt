//! What a device holds.
ghost use Rattle.std.specs.Prelude.{◌≡◌, ◌≢◌, ◌^◌, ◌<◌, IfOk, IfErr};
ghost use Rattle.pf_disk.specs.Runs.{OnlyReads};
ghost use Rattle.pf_core.specs.Laws.Durable.{IsWithin};
ghost use Rattle.pf_store.specs.declared.store.fault.OpenFault.TheVariants as opening;
ghost use Rattle.pf_store.specs.{Stores.Holds, StoreFaults.{is_open_fault}, Openings.{IsUnopened, generation_of}};

use crate::store::fault::OpenFault;
use crate::store::keeping::Store;
use crate::store::replaying::replay;
use pf_core::Durable;
use pf_disk::Disk;
use pf_snap::look;
use std::alloc::Global;

impl<D: Disk> Store<D> {
    /// What a device holds, as it reads, in at most four moments of the device. It writes and syncs nothing. The error is never
    /// `EpochsExhausted` or `Full`.
    pub fn peek(alloc: Global, disk: &mut D) -> Result<Durable, OpenFault>
        requires few { D.fault_count disk.old < 2 ^ 63 }
        ensures held { IfOk result (λ d. (held : Holds (D.seen disk.old) d) × (generation_of (D.seen disk.old) d held < 2 ^ 63)) }
        ensures within { IfOk result (λ d. IsWithin d) }
        ensures refused { IfErr result (λ e. IsUnopened e (D.seen disk.old)) }
        ensures by_reading { IfErr result (λ e. (e ≢ opening.EpochsExhausted) × (e ≢ opening.Full)) }
        ensures reads { OnlyReads D.Disk disk.old disk.new 4 (is_open_fault result) }
    {
        match look(alloc, disk) {
            Ok(looked) => match replay(alloc, &looked) {
                Ok(durable) => Ok(durable),
                Err(fault) => Err(fault),
            },
            Err(fault) => Err(fault.into()),
        }
    }
}
