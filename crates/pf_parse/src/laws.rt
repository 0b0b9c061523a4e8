//! Laws of a file's lines. Each function does nothing; its contract is what is proved.
ghost use Rattle.std.specs.{Prelude.{◌≡◌, Bool, List, Ok}, List.All};
ghost use Rattle.pf_tokens.specs.declared.token.Token.{Token};
ghost use Rattle.pf_parse.specs.declared.{parser.Mode.Mode, parser.Mode.TheVariants.{Strict, Lenient}, statements.Parsed.Parsed, tree.Written.Written};
ghost use Rattle.pf_parse.specs.{Lines.parsed, Laws.BeginsAt};

/// What is taken strictly is taken leniently, with the same rules, tables, loads and notes.
pub fn lenient_takes_what_strict_takes()
    ensures { (ts : List Token) (is_main : Bool) (p : Parsed) → parsed ts Strict is_main ≡ Ok p → parsed ts Lenient is_main ≡ Ok p }
{}

/// Each rule of a file has the place of one of its tokens that begins a rule: `pass`, `block` or `anchor`.
pub fn rules_stand_at_their_words()
    ensures { (ts : List Token) (mode : Mode) (is_main : Bool) (p : Parsed) → parsed ts mode is_main ≡ Ok p →
        All (λ (w : Written). BeginsAt ts (w.product).place) (p.tree).rules }
{}
