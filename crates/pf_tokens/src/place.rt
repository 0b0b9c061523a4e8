//! Where bytes stand.
ghost use Rattle.std.specs.Prelude.{◌≡◌, ◌<◌, ◌+◌, ◌^◌};
ghost use Rattle.pf_tokens.specs.Places.{start_of, used_at, next_line, next_column};

/// Where a byte, a token or what is made of it stands.
#[derive(Clone, Copy, Debug, PartialEq, Eq)]
pub struct Place {
    /// The number of the file among those that are given, from 0.
    pub file: usize,
    /// The line, from 1.
    pub line: u32,
    /// The column, from 1, in bytes.
    pub column: u32,
    /// If it came of a macro, the number of that macro's definition, from 0; the place is then that of the macro's use.
    pub value_of: Option<usize>,
}

/// A byte, and where it stands.
#[derive(Clone, Copy, Debug, PartialEq, Eq)]
pub struct Placed {
    pub byte: u8,
    pub place: Place,
}

impl Place {
    /// Where a file begins.
    pub fn start(file: usize) -> Place
        ensures { result ≡ start_of file }
    {
        Place {
            file,
            line: 1,
            column: 1,
            value_of: None,
        }
    }

    /// Where what the macro of this number stands for is, if it is used here.
    pub(crate) fn used(self, number: usize) -> Place
        ensures { result ≡ used_at self number }
    {
        Place {
            value_of: Some(number),
            ..self
        }
    }

    /// The beginning of the next line.
    pub(crate) fn next_line(self) -> Place
        requires { self.line + 1 < 2 ^ 32 }
        ensures { result ≡ next_line self }
    {
        Place {
            line: self.line + 1,
            column: 1,
            ..self
        }
    }

    /// The next column.
    pub(crate) fn next_column(self) -> Place
        requires { self.column + 1 < 2 ^ 32 }
        ensures { result ≡ next_column self }
    {
        Place {
            column: self.column + 1,
            ..self
        }
    }
}
