//! Fields of forms, which have a fixed width.
ghost use Rattle.std.specs.Prelude.{◌≡◌, ◌≤◌, length};
ghost use Rattle.pf_rule.specs.Sum.Forms.{filled};

/// These bytes followed by zeros.
#[tactic(auto, unfolding(crate::specs::Sum::Forms::filled))]
pub(crate) fn filled<const WIDTH: usize>(bytes: &[u8]) -> [u8; WIDTH]
    requires { length bytes.now ≤ WIDTH }
    ensures { result ≡ filled WIDTH bytes.now }
{
    let mut field = [0; WIDTH];
    field[..bytes.len()].copy_from_slice(bytes);
    field
}
