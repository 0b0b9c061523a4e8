//! Laws of words and numbers. A function's contract is the law, and its body does nothing.
ghost use Rattle.std.specs.Prelude.{◌≡◌, ℕ, List, Some, All};
ghost use Rattle.pf_form.specs.{Form.Words.{Word, words_of}, Form.Cuts.{IsWord, IsCut}};
ghost use Rattle.pf_form.specs.Form.Numbers.{IsNumber, number_of, IsNumberIn, number_in};

/// The words of a line are what is between its blanks, and there are no others.
#[tactic(auto, using(crate::proofs::Cutting::each_is_word, crate::proofs::Cutting::line_is_cut, crate::proofs::Cutting::cut_only))]
pub fn words_stand_between_blanks()
    ensures each { (line : List ℕ) → All IsWord (words_of line) }
    ensures cut { (line : List ℕ) → IsCut line (words_of line) }
    ensures only { (line : List ℕ) (ws : List Word) → IsCut line ws → words_of line ≡ ws }
{}

/// A number is read from a word exactly when the word writes it.
#[tactic(auto, using(crate::specs::Laws::Form::Numbers::numbers_read))]
pub fn numbers_are_read_as_written()
    ensures read { (most : ℕ) (w : Word) (n : ℕ) → number_of most w ≡ Some n → IsNumber most w n }
    ensures written { (most : ℕ) (w : Word) (n : ℕ) → IsNumber most w n → number_of most w ≡ Some n }
    ensures read_in { (bits most : ℕ) (w : Word) (n : ℕ) → number_in bits most w ≡ Some n → IsNumberIn bits most w n }
    ensures written_in { (bits most : ℕ) (w : Word) (n : ℕ) → IsNumberIn bits most w n → number_in bits most w ≡ Some n }
{}
