//! Laws of texts and tokens. Each function does nothing; its contract is what is proved.
ghost use Rattle.std.specs.Prelude.{◌≡◌, ◌≤◌, ◌+◌, ◌∷◌, ◌++◌, ℕ, true, [], List, Ok, length};
ghost use Rattle.std.specs.List.{list_all};
ghost use Rattle.pf_tokens.specs.declared.{place.Place.Place, place.Placed.Placed, token.Token.Token, lexing.Source.Source, files.File.File, flat.Flat.Flat, counting.TheConstants.TOKEN_LIMIT};
ghost use Rattle.pf_tokens.specs.declared.lexing.Source.TheVariants as sources;
ghost use Rattle.pf_tokens.specs.{Places.{start_of, at}, Placed.placed, Lexing.lex, Flat.{Line, begun, read_file}};
ghost use Rattle.pf_tokens.specs.Laws.{located, end_of, uncontinued, HasInOrder, bytes_of, HasNoMacro, is_plain, tokens_of, open_after};

/// What is read of a text is its bytes without continued lines, each with its place in the text, and a newline at the end.
#[tactic(auto, using(crate::proofs::Continued::placed_is))]
pub fn continued_lines_vanish()
    ensures { (p : Place) (text : List ℕ) → placed p text ≡ uncontinued (located p text) ++ at 10 (end_of p text) ∷ [] }
{}

/// What tokens are made of stands in the text, byte after byte, each where the token has it.
pub fn tokens_stand_in_their_text()
    ensures { (source : Source) (n : ℕ) (text : List Placed) (ts : List Token) → lex source n 0 text ≡ Ok ts → HasInOrder text (bytes_of ts) }
{}

/// No use of a macro is left of a file and of those that it includes, nor is one in a macro's value.
pub fn no_macro_is_left()
    ensures { (files : List File) (deep number : ℕ) (text : List ℕ) (s t : Flat) → HasNoMacro s → read_file files deep number text s ≡ Ok t → HasNoMacro t }
{}

/// The tokens of lines without macros, definitions and includes are left as they are, if they close their braces and aren't too many.
#[tactic(auto, using(crate::proofs::Plain::read_file_plain))]
pub fn plain_lines_are_left()
    ensures { (files : List File) (deep number : ℕ) (text : List ℕ) (ls : List Line) (s : Flat) → list_all is_plain ls ≡ true →
        lex sources.File s.words_read 0 (placed (start_of number) text) ≡ Ok (tokens_of ls) → open_after [] (tokens_of ls) ≡ [] →
        length s.tokens + length (tokens_of ls) ≤ TOKEN_LIMIT →
        read_file files deep number text s ≡ Ok (record (begun s (tokens_of ls)) { tokens = s.tokens ++ tokens_of ls }) }
{}
