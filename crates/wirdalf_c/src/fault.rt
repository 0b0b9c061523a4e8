//! What C gets for a fault, and why bytes aren't read.
ghost use Rattle.std.specs.Prelude.{◌≡◌};
ghost use Rattle.wirdalf_c.specs.Codes.{code_of, place_of};

/// What a call returns if all went well.
pub const OK: u32 = 0;
/// No disk has so many bytes.
pub const BAD_SIZE: u32 = 1;
/// There is no open bank: no `pfd` formatted these bytes.
pub const NO_BANK: u32 = 2;
/// What begins at a place of the bytes is nothing that could have been left there.
pub const CORRUPT: u32 = 3;
/// Out of memory.
pub const MEMORY: u32 = 4;
/// `pfd` refuses a line.
pub const REFUSED: u32 = 5;
/// A line is a command, but none of which configurations are made.
pub const UNFIT: u32 = 6;

/// Why bytes aren't read.
#[derive(Clone, Copy)]
pub enum ReadFault {
    /// They are an odd number, or fewer than 256 or more than 2^30.
    BadSize,
    /// They have no open bank.
    NoBank,
    /// What begins at this place of them is nothing that could have been left there.
    Corrupt { at: usize },
    /// Out of memory.
    Memory,
}

impl ReadFault {
    /// What C gets for it.
    pub fn code(self) -> u32
        ensures { result ≡ code_of self }
    {
        match self {
            ReadFault::BadSize => BAD_SIZE,
            ReadFault::NoBank => NO_BANK,
            ReadFault::Corrupt { .. } => CORRUPT,
            ReadFault::Memory => MEMORY,
        }
    }

    /// The place that it names; 0 if it names none.
    pub fn place(self) -> u64
        ensures { result ≡ place_of self }
    {
        match self {
            ReadFault::Corrupt { at } => at as u64,
            _ => 0,
        }
    }
}
