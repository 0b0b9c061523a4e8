//! Labels of rules.

use pf_addr::path::Name;

/// How many bytes a label may have: those of pf(4)'s `label` but for its closing zero. A label's bytes are those of names, which is this
/// project's own rule.
pub const LABEL_LIMIT: usize = 63;

/// The label of a rule, of at most [`LABEL_LIMIT`] bytes.
pub type Label = Name<LABEL_LIMIT>;
