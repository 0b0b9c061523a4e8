//! Laws of interfaces. Each function does nothing; its contract is what is proved.
ghost use Rattle.std.specs.Prelude.{◌≡◌, List, []};
ghost use Rattle.pf_tokens.specs.declared.token.Token.{Token};
ghost use Rattle.pf_values.specs.declared.interfaces.interface.Interface.{Interface};
ghost use Rattle.pf_values.specs.Interfaces.{Addresses.with_addresses, Laws.HasTheWordsOf};

/// Where no interface is given, a file's tokens stay as they are.
pub fn without_interfaces_nothing_changes()
    ensures { (ts : List Token) → with_addresses [] ts ≡ ts }
{}

/// Each word without quotes that is there with the addresses is one of the file's, at its own place.
pub fn words_are_the_files()
    ensures { (is : List Interface) (ts : List Token) → HasTheWordsOf ts (with_addresses is ts) }
{}
