// A call of a device as it is kept, and what its write makes of bytes.
ghost use Rattle.std.specs.Prelude.{◌≡◌, ◌+◌, ◌≤◌, length};
ghost use Rattle.pf_disk.specs.Disk.{overwritten};

/// A call that was made.
#[derive(Drop)]
pub(crate) enum Call {
    Read,
    Write { at: usize, bytes: Vec<u8> },
    Sync,
}

pub(crate) fn overwrite(bytes: &mut Vec<u8>, at: usize, new: &[u8])
    requires { at + length new.now ≤ length bytes.old.items }
    ensures { bytes.new.items ≡ overwritten bytes.old.items at new.now }
{
    bytes[at..at + new.len()].copy_from_slice(new);
}
