//! What the options of a subcommand say, as clap found them.
ghost use Rattle.std.specs.Prelude.{◌≡◌, IfOk, [], map, option_map, unwrap_or};
ghost use Rattle.clap.specs.Words.{all_of, found_of, first_of, one_of, rows_of};
ghost use Rattle.pfd_words.specs.Options.{IsFlag};

use clap::ArgMatches;
use std::alloc::{AllocError, Global};

/// The text of an option that must be there.
pub(crate) fn text_in<'a>(found: &ArgMatches<'a>, option: &str) -> &'a str
    ensures { result.now ≡ unwrap_or (first_of option.now (rows_of (found_of found.now))) [] }
{
    found.get_str(option).unwrap_or("")
}

/// The text of an option, or none if the option isn't there.
pub(crate) fn text_if_any<'a>(found: &ArgMatches<'a>, option: &str) -> Option<&'a str>
    ensures { option_map (λ s. s.now) result ≡ first_of option.now (rows_of (found_of found.now)) }
{
    found.get_str(option)
}

/// The texts of an option that may be said again, in their order.
pub(crate) fn texts_in<'a>(
    alloc: Global,
    found: &ArgMatches<'a>,
    option: &str,
) -> Result<Vec<&'a str>, AllocError>
    ensures { IfOk result (λ texts. map (λ s. s.now) texts.items ≡ unwrap_or (all_of option.now (rows_of (found_of found.now))) []) }
{
    match found.get_strs(option) {
        Some(texts) => texts.to_vec(alloc),
        None => Ok(Vec::new(alloc)),
    }
}

/// Whether an option is there that has no value.
pub(crate) fn is_said(found: &ArgMatches<'_>, option: &str) -> bool
    ensures { IsFlag (one_of option.now (rows_of (found_of found.now))) result }
{
    found.get_flag(option)
}
