//! Laws of every form. A function's contract is the law, and its body does nothing.
ghost use Rattle.std.specs.Prelude.{◌≡◌, ◌++◌, ◌∷◌, ◌+◌, ℕ, List, length, Ok, Err};
ghost use Rattle.pf_form.specs.declared.{bytes.fault.Fault.Fault, bytes.fault.Fault.TheVariants.Short};
ghost use Rattle.pf_form.specs.{Bytes.BasicForms.Bytes, Bytes.Forms.{Shape, Value, ByteForm, Spells, Fits, reads, writes, length_of}};
ghost use Rattle.pf_form.specs.Bytes.Readers.{Refused, GoesWrong, read_all};

/// A value's bytes are read back as that value, and what comes after them is left; a proper front of them is short.
pub fn what_is_written_is_read()
    ensures again { (a : Shape) (f : ByteForm a) (x : Value a) (rest : List ℕ) → Fits f x → reads f (writes f x ++ rest) ≡ Ok (x, rest) }
    ensures short { (a : Shape) (f : ByteForm a) (x : Value a) (front : List ℕ) (b : ℕ) (more : List ℕ) → Spells f x (front ++ b ∷ more) → reads f front ≡ Err Short }
{}

/// What is read is what was written, and bytes are those of one value at most.
pub fn bytes_have_one_value()
    ensures takes { (a : Shape) (f : ByteForm a) (bytes : List ℕ) (x : Value a) (rest : List ℕ) → Bytes bytes → reads f bytes ≡ Ok (x, rest) → Fits f x × (bytes ≡ writes f x ++ rest) }
    ensures one { (a : Shape) (f : ByteForm a) (bytes : List ℕ) (x y : Value a) → Spells f x bytes → Spells f y bytes → x ≡ y }
{}

/// Bytes that aren't a value's have one fault, which reading returns; where something isn't allowed, no further bytes help.
pub fn refusals_have_one_reason()
    ensures one { (a : Shape) (f : ByteForm a) (bytes : List ℕ) (d e : Fault) → Bytes bytes → Refused f bytes d → Refused f bytes e → d ≡ e }
    ensures read { (a : Shape) (f : ByteForm a) (bytes : List ℕ) (d : Fault) → Bytes bytes → Refused f bytes d → read_all f bytes ≡ Err d }
    ensures stays { (a : Shape) (f : ByteForm a) (bytes : List ℕ) (left : ℕ) (more : List ℕ) → GoesWrong f bytes left → GoesWrong f (bytes ++ more) (length more + left) }
{}

/// A value is written in as many bytes as its form says.
pub fn values_have_a_length()
    ensures { (a : Shape) (f : ByteForm a) (x : Value a) → length (writes f x) ≡ length_of f x }
{}
