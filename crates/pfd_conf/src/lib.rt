//! What the program does with a pf.conf: it says what the file means, and tests the firewall that it describes.
//!
//! The modules, each of which uses only those before it: `case` (a packet with the verdict that is wanted), `fault` (why there is no
//! answer), `taking` (a file with all that it names), `firewall` (a file's rules and tables as packets are judged by them, and where each
//! rule is written), `checking` (what a file means, as it is printed), `outcomes` (what cases come to), `files` (reading files), `report`,
//! `tap` and `junit` (how a user is told of outcomes), `cover` (rules that decide no case), `explain` (the rules that match a packet) and
//! `laws`.
//!
//! The crate knows no words of the program and no server. Files are read by a function that is passed in; `files` has that of the program.
//! Read `specs/Taking.antt` and `specs/Firewalls.antt` first, then `specs/Outcomes.antt` and `specs/Reports.antt`.
#![tactic(auto)]

pub mod case;
mod checking;
mod cover;
mod explain;
mod fault;
mod files;
mod firewall;
mod junit;
mod laws;
mod outcomes;
mod report;
mod taking;
mod tap;

pub use checking::{check, take_noting};
pub use fault::{CaseMistake, Fault};
pub use files::{read_cases, read_conf};
pub use firewall::{Decided, Firewall};
pub use laws::every_case_is_counted_once;
pub use outcomes::{CASES_LIMIT, Cases, Outcome, Tried};
pub use pf_conf::{Interface, Mode};
pub use report::Tally;
pub use taking::{Taken, given_interfaces, take};
