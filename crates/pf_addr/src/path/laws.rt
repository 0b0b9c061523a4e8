//! Laws that follow from the definitions in contracts. Each function's contract is the law; its body does nothing.
ghost use Rattle.std.specs.Prelude.{◌≡◌, ◌≤◌, ℕ, true, List};
ghost use Rattle.pf_addr.specs.declared.path.limits.TheConstants.{PATH_LIMIT, COMPONENT_LIMIT, DEPTH_LIMIT, REFERENCE_LIMIT};
ghost use Rattle.pf_addr.specs.declared.path.limits.TheConstants.{TABLE_NAME_LIMIT};
ghost use Rattle.pf_addr.specs.Path.{FaultCases.{IsNameFault, IsPathFault, IsReferenceFault}, Names.{name_of, IsName, IsTableName}};
ghost use Rattle.pf_addr.specs.Path.{Paths.{path_of, is_path}, References.{reference_of, PlainReference}, ReferenceGrammar.IsReference};
ghost use Rattle.pf_addr.specs.Path.PathForms.{path_form, table_name_form, name_field, reference_form, plain_reference, reference_of_plain};
ghost use Rattle.pf_addr.specs.Laws.Path.Names.{ReadsANameAlone, ReadsEachName};
ghost use Rattle.pf_addr.specs.Laws.Path.Paths.{ReadsWhatIsSpelled, ReadsAllThatIsSpelled, WritesWhatWasRead, ReadsWhatIsWritten};
ghost use Rattle.pf_addr.specs.Laws.Path.Paths.{SamePathIsEqual};
ghost use Rattle.pf_addr.specs.Laws.Path.References.{ReferenceIsSpelled, SpelledReferenceIsRead};
ghost use Rattle.pf_addr.specs.Laws.Path.Nested.{NoDeeper, LeadsDeeper, ChildHasOneMore, EachIsAChild};
ghost use Rattle.pf_form.specs.{Form.FaultsFound.TellsFaults, Bytes.{Forms.Fits, Names.{filled, before_zero}}};

/// A word is read as a name exactly where it is one.
#[tactic(auto, using(crate::proofs::NamesRead::name_found, crate::proofs::NamesRead::name_only))]
pub fn names_are_read_as_spelled()
    ensures read { ReadsANameAlone }
    ensures spelled { ReadsEachName }
{}

/// A path is read from a word exactly where the word spells it.
#[tactic(auto, using(crate::proofs::PathsRead::read_is_spelled, crate::proofs::PathsRead::spelled_is_read))]
pub fn paths_are_read_as_spelled()
    ensures read { ReadsWhatIsSpelled }
    ensures spelled { ReadsAllThatIsSpelled }
{}

/// A path that was read is written as the word that it was read from, and each path is read again from what it is written as.
#[tactic(auto, using(crate::proofs::PathsRead::read_again))]
pub fn paths_are_read_again()
    ensures written { WritesWhatWasRead }
    ensures read { ReadsWhatIsWritten }
{}

/// Paths that are the same are equal.
#[tactic(auto, using(crate::proofs::PathsRead::same_path_is))]
pub fn same_paths_are_equal()
    ensures { SamePathIsEqual }
{}

/// A reference is read from a word exactly where the word spells it.
pub fn references_are_read_as_spelled()
    ensures read { ReferenceIsSpelled }
    ensures spelled { SpelledReferenceIsRead }
{}

/// No path has more than 16 components, and joining names to a path gives a deeper one. The children of a path are the paths with one
/// component more.
pub fn paths_stand_within_one_another()
    ensures limit { NoDeeper }
    ensures deeper { LeadsDeeper }
    ensures one_more { ChildHasOneMore }
    ensures each { EachIsAChild }
{}

/// A word that isn't a name, a path or a reference is refused for the one fault that it has, by cases on the word.
#[tactic(auto, using(crate::proofs::NameFaultsReported::all_reported))]
pub fn faults_of_names_are_reported()
    ensures names { (limit : ℕ) → TellsFaults (name_of limit) (IsNameFault limit) }
    ensures paths { TellsFaults path_of IsPathFault }
    ensures references { TellsFaults reference_of IsReferenceFault }
{}

/// Each path, each name of a table, each name in a field and each reference can be written in bytes. A name can be read back from its
/// field, and a reference from its bytes; a path and a table's name are their own bytes.
#[tactic(auto, using(crate::proofs::PathBytes::path_fits, crate::proofs::PathBytes::table_name_fits, crate::proofs::PathBytes::name_fits, crate::proofs::PathBytes::reference_fits, crate::proofs::PathBytes::reference_again))]
pub fn names_have_bytes_of_their_own()
    ensures paths { (p : List ℕ) → is_path p ≡ true → Fits path_form p }
    ensures tables { (n : List ℕ) → IsTableName n → Fits table_name_form n }
    ensures fields { (limit width : ℕ) (n : List ℕ) → limit ≤ width → IsName limit n
        → Fits (name_field limit width) (filled width n) }
    ensures names { (limit width : ℕ) (n : List ℕ) → IsName limit n → before_zero (filled width n) ≡ n }
    ensures references { (r : PlainReference) → IsReference r → Fits reference_form (plain_reference r) }
    ensures referred { (r : PlainReference) → IsReference r → reference_of_plain (plain_reference r) ≡ r }
{}

/// How long names, paths and references may be.
pub fn limits_are_these()
    ensures path { PATH_LIMIT ≡ 255 }
    ensures component { COMPONENT_LIMIT ≡ 63 }
    ensures depth { DEPTH_LIMIT ≡ 16 }
    ensures reference { REFERENCE_LIMIT ≡ 63 }
    ensures table_name { TABLE_NAME_LIMIT ≡ 31 }
{}
