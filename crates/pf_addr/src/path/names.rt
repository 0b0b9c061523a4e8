//! Bytes of names.
ghost use Rattle.std.specs.{Prelude.◌≡◌, List.list_all};
ghost use Rattle.pf_addr.specs.Path.Names.{is_name_byte};

fn fits_name(b: u8) -> bool
    ensures { result ≡ is_name_byte b }
{
    b.is_ascii_alphanumeric() || b == b'_' || b == b'.' || b == b'-'
}

/// Whether each byte of a word may be in a name: a letter, a digit, `_`, `.` or `-`.
pub fn has_name_bytes(word: &[u8]) -> bool
    ensures { result ≡ list_all is_name_byte word.now }
{
    word.iter().all(|b| fits_name(*b))
}
