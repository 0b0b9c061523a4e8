//! Laws of a pf.conf. Each function does nothing; its contract is what is proved.
ghost use Rattle.std.specs.List.{join_with_byte, list_all};
ghost use Rattle.std.specs.Prelude.{map, true, ◌≡◌, ◌++◌, ◌+◌, ◌<◌, ◌^◌, Bool, List, ℕ, Ok, length, count_by};
ghost use Rattle.pf_rule.specs.Rules.{PlainRule};
ghost use Rattle.pf_lists.specs.{Product.{Word, spelled, count}, Multiplied.{is_left_out, multiplied}};
ghost use Rattle.pf_tokens.specs.declared.{files.File.File, place.Placed.Placed, token.Token.Token, lexing.Source.Source};
ghost use Rattle.pf_tokens.specs.declared.lexing.Source.TheVariants as sources;
ghost use Rattle.pf_tokens.specs.{Lexing.lex, Places.text_of, Laws.bytes_of};
ghost use Rattle.pf_parse.specs.declared.{parser.Mode.Mode, statements.Parsed.Parsed, tree.Tree.Tree};
ghost use Rattle.pf_parse.specs.{Lists.{interface, protocol, port, listed_item, listed_hosts, hosts_in, item_more}, Options.options_more, Lines.{parts_more, lines_more, parsed}};
ghost use Rattle.pf_values.specs.declared.interfaces.interface.Interface.{Interface};
ghost use Rattle.pf_conf.specs.declared.found.Conf.{Conf};
ghost use Rattle.pf_conf.specs.{Resolving.resolved, Rulesets.{PlacedRule, skips_in, written_in, rules_in}};
ghost use Rattle.pf_load.specs.Laws.{AreOnce};
ghost use Rattle.pf_load.specs.Files.{Types.{Start, Tests}, Lists.{left_of, AreReadAs, HaveOneItem, IsOne}, Commits.{CommitHasRoom, FilesLoadExactly}, Loads.{MoreLoadsChangeNothing, NoLoadWaits}, Turns.TurnsSuffice, Words.HasRulesAlone, Places.{beginnings, places_of, AreSome}, Pieces.IsCut, Rulesets.AreRulesOf, Spaces.{is_plain_word, read_as, as_word}};

use crate::a_load_replaces_what_it_names;
use pf_lists::{rules_are_counted, ways_have_numbers};
use pf_rule::rules_and_packets_are_read_as_spelled;

/// Lists stand for the rules that pf_rule reads of their ways, in order, but for the ways that are left out since their families differ.
/// So there are as many rules as the lists' lengths multiplied, less those ways.
pub fn rules_are_the_ways_that_are_left()
    ensures read { (lists : List (List (List Word))) (rules : List PlainRule) → multiplied lists ≡ Ok rules →
        AreReadAs (left_of (spelled lists)) rules }
    ensures counted { (lists : List (List (List Word))) (rules : List PlainRule) → multiplied lists ≡ Ok rules →
        length rules + count_by is_left_out (spelled lists) ≡ count lists }
{
    rules_are_counted();
    ways_have_numbers();
}

/// A rule that is written without lists is one rule, if it isn't refused.
pub fn a_rule_without_lists_is_one_rule()
    ensures { (lists : List (List (List Word))) (rules : List PlainRule) → HaveOneItem lists → multiplied lists ≡ Ok rules → IsOne rules }
{
    rules_are_counted();
    ways_have_numbers();
}

/// Of what a file means, with all that it loads, no table is filled twice.
pub fn tables_are_filled_once()
    ensures { (files : List File) (interfaces : List Interface) (mode : Mode) (base name : List ℕ) (c : Conf) →
        resolved files interfaces mode base name ≡ Ok c → AreOnce c.tables }
{}

/// After the commit of a load of a file that went through, its rulesets have exactly the file's rules, and its tables the file's entries,
/// each once; all other rulesets and tables are as they were.
pub fn a_file_is_loaded_exactly()
    ensures { FilesLoadExactly }
{
    a_load_replaces_what_it_names();
}

/// One commit has room for all that a file means: the rules of each path and the tables of each path are 64 rulesets at most, and one line
/// of 4,096 bytes names them with any tickets.
pub fn one_commit_has_room()
    ensures { (files : List File) (interfaces : List Interface) (mode : Mode) (base name : List ℕ) (c : Conf) →
        resolved files interfaces mode base name ≡ Ok c → CommitHasRoom c }
{}

/// All files that are mentioned by `load anchor` are read, if no fault is told: there are fewer of them than files that may be read.
pub fn all_loads_are_read()
    ensures more { MoreLoadsChangeNothing }
    ensures none { NoLoadWaits }
{}

/// The turns that a reader is given suffice, whatever it reads: of the lines of a file, of a table's parts, of a rule's options, and of lists
/// of interfaces, of protocols, of ports and of hosts.
pub fn more_turns_change_nothing()
    ensures lines { TurnsSuffice lines_more }
    ensures parts { TurnsSuffice parts_more }
    ensures options { (start : Start) (tests : Tests) → TurnsSuffice (options_more start tests) }
    ensures interfaces { TurnsSuffice (item_more (listed_item interface)) }
    ensures protocols { TurnsSuffice (item_more (listed_item protocol)) }
    ensures ports { TurnsSuffice (item_more (listed_item port)) }
    ensures hosts { (deep : ℕ) → TurnsSuffice (item_more (listed_hosts (hosts_in deep))) }
{}

/// The words of each way of a rule that is read are a rule's: no file is refused since they are none. A file has fewer than 2^64 braces.
pub fn words_of_rules_are_rules()
    ensures { (ts : List Token) (mode : Mode) (is_main : Bool) (p : Parsed) → parsed ts mode is_main ≡ Ok p →
        length p.tree.braces < 2 ^ 64 → HasRulesAlone p.tree }
{
    rules_and_packets_are_read_as_spelled();
}

/// Each rule that is written has the place of its own word: the places of rules are, in order, those of some of the words `pass`, `block`
/// and `anchor`, and no two rules have one word.
pub fn rules_come_in_the_order_of_their_words()
    ensures { (ts : List Token) (mode : Mode) (is_main : Bool) (p : Parsed) → parsed ts mode is_main ≡ Ok p →
        AreSome (beginnings ts) (places_of p.tree.rules) }
{}

/// No byte of a text is lost: what isn't in a token is a space, a tab, a newline, a quote, a `$`, or stands in a comment.
pub fn no_byte_is_lost()
    ensures { (source : Source) (n : ℕ) (text : List Placed) (ts : List Token) → lex source n 0 text ≡ Ok ts → IsCut text (bytes_of ts) }
{}

/// A ruleset has, one after another, the rules that each written one in its braces stands for, where its first word stands. A file's own
/// come behind those of the interfaces that it skips.
pub fn rulesets_have_the_rules_that_are_written()
    ensures { (number : ℕ) (tree : Tree) (rules : List PlacedRule) → rules_in number tree ≡ Ok rules →
        AreRulesOf (skips_in number tree ++ written_in number tree.rules) rules }
{}

/// Words with a space between each two are read as these words, if nothing else is wrong with them: a quote in one, or too many words.
pub fn words_with_spaces_are_these_words()
    ensures { (n : ℕ) (words : List (List ℕ)) (text : List Placed) (ts : List Token) → list_all is_plain_word words ≡ true →
        text_of text ≡ join_with_byte 32 words → lex sources.File n 0 text ≡ Ok ts → map read_as ts ≡ map as_word words }
{}
