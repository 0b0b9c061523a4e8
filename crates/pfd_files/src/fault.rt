//! Why the program ends with status 1.
ghost use Rattle.std.specs.Prelude.{◌≡◌};
ghost use Rattle.pfd_files.specs.Faults.{fault_of_opening, fault_of_formatting, fault_of_file};

use pf_disk::FileFault;
use pf_store::{FormatFault, OpenFault};
use thiserror::Error;

/// Why the program ends with status 1.
#[derive(Clone, Copy, Debug, PartialEq, Eq, Error)]
pub enum Fault {
    /// A disk would have, or has, an odd number of bytes, or fewer than 256 or more than 2^30.
    #[error("bad size")]
    BadSize,
    /// The disk has no open bank.
    #[error("no bank")]
    NoBank,
    /// What begins at this place of the disk is nothing that could have been left there.
    #[error("corrupt at {at}")]
    Corrupt { at: usize },
    /// A call of the disk failed.
    #[error("fault")]
    Device,
    /// The epoch is the last one.
    #[error("epochs exhausted")]
    EpochsExhausted,
    /// The disk has no room for the record of an opening.
    #[error("full")]
    Full,
    /// Out of memory.
    #[error("memory")]
    Memory,
    /// There is no place for a reader of what is published.
    #[error("places")]
    Places,
    /// A read of the input failed; or the file can't be opened, made or brought to its length, or is locked; or an address can't be
    /// listened on, an accept failed, or nobody answers there.
    #[error("input")]
    Input,
    /// A write or a flush of the output failed.
    #[error("output")]
    Output,
    /// What is wrong was told already, in lines of its own.
    #[error("told")]
    Reported,
}

impl From<OpenFault> for Fault {
    ghost from_gives = { λ fault reported. reported ≡ fault_of_opening fault };

    fn from(fault: OpenFault) -> Fault {
        match fault {
            OpenFault::BadSize => Fault::BadSize,
            OpenFault::NoBank => Fault::NoBank,
            OpenFault::Corrupt { at } => Fault::Corrupt { at },
            OpenFault::Memory => Fault::Memory,
            OpenFault::Fault => Fault::Device,
            OpenFault::EpochsExhausted => Fault::EpochsExhausted,
            OpenFault::Full => Fault::Full,
            OpenFault::Places => Fault::Places,
        }
    }
}

impl From<FormatFault> for Fault {
    ghost from_gives = { λ fault reported. reported ≡ fault_of_formatting fault };

    fn from(fault: FormatFault) -> Fault {
        match fault {
            FormatFault::BadSize => Fault::BadSize,
            FormatFault::Memory => Fault::Memory,
            FormatFault::Fault => Fault::Device,
        }
    }
}

impl From<FileFault> for Fault {
    ghost from_gives = { λ fault reported. reported ≡ fault_of_file fault };

    fn from(fault: FileFault) -> Fault {
        match fault {
            FileFault::WrongLength => Fault::Input,
            FileFault::Fault => Fault::Device,
            FileFault::Memory => Fault::Memory,
        }
    }
}
