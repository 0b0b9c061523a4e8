//! What follows from the definitions that contracts cite: functions that do nothing, whose contracts are the laws.
ghost use Rattle.std.specs.{Prelude.{◌≡◌, T, true, List, map}, Cmp.IsTotalOrder, FinMap.{IsAntisymmetric, is_sorted}};
ghost use Rattle.pf_addr.specs.Address.{IsNetwork};
ghost use Rattle.pf_form.specs.Bytes.{Forms.{Fits, length_of}, Lists.{ordered, in_order}};
ghost use Rattle.pf_table.specs.declared.limits.TheConstants.{TABLE_LIMIT};
ghost use Rattle.pf_table.specs.{Entries.PlainEntry, Tables.IsTable, EntryForms.{entry, plain_entry, entry_of, entry_before}};
ghost use Rattle.pf_table.specs.Laws.Tables.{TableDecides, TableMatches, FamiliesApart, OneTable, AddsWhatIsNamed, DeletesWhatIsNamed};
ghost use Rattle.pf_table.specs.Laws.Tables.{HoldsTheList, AllElseStays, StaysTable, OneAnswerEach, AnswersInOrder, CountsWhatChanged};
ghost use Rattle.pf_table.specs.Laws.Tables.{RepeatsChangeNothing, TellsTheFirstConflict};
ghost use Rattle.pf_addr.specs.NetOrder.{net_order};

/// A table has at most 65,536 entries.
pub fn the_limit_of_entries()
    ensures { TABLE_LIMIT ≡ 65536 }
{}

/// Networks have a total order, in which only equal ones tie.
#[tactic(auto, using(pf_addr::specs::Laws::NetOrder::net_total, pf_addr::specs::Laws::NetOrder::net_same))]
pub fn networks_are_in_order()
    ensures total { IsTotalOrder net_order }
    ensures own { IsAntisymmetric net_order }
{}

/// In a table at most one entry decides about an address: it contains the address, and every other one that does has a shorter prefix.
/// There is none exactly where no entry contains the address. The table matches the address exactly where the entry that decides isn't
/// negated. No entry contains an address of the other family.
pub fn one_entry_decides()
    ensures decides { TableDecides }
    ensures matches { TableMatches }
    ensures family { FamiliesApart }
{}

/// Two tables in which each network has the same sign are equal.
#[tactic(auto, using(crate::proofs::TableLaws::one_table_law))]
pub fn one_table()
    ensures { OneTable }
{}

/// After an edit each network has the sign that the edit gives it, or else keeps its own: an add never changes a sign, and a network that
/// an add or a delete doesn't name stays as it is. What is left is a table, if it has few enough entries.
pub fn edits_change_what_they_name()
    ensures adds { AddsWhatIsNamed }
    ensures deletes { DeletesWhatIsNamed }
    ensures replaces { HoldsTheList }
    ensures stays { AllElseStays }
    ensures table { StaysTable }
{}

/// Each entry of an edit has one answer, in the order of the entries. An entry that is added is answered by the sign that the table had for
/// its network before the edit; without one, the first that names the network is `Added`, and later ones are `Same`. One that is deleted is
/// `Deleted` if the table had it with its sign and no earlier entry names its network, else `Absent`. As many are answered `Added` or
/// `Deleted` as the table grows or shrinks by. Adding or deleting an entry once more changes nothing.
pub fn answers_say_what_changed()
    ensures each { OneAnswerEach }
    ensures entries { AnswersInOrder }
    ensures counts { CountsWhatChanged }
    ensures repeats { RepeatsChangeNothing }
{}

/// The conflict that is answered is at the first entry whose network came before it with the other sign; if none is answered, there is no
/// such entry.
#[tactic(auto, using(crate::proofs::TableLaws::tells_the_first_conflict))]
pub fn the_first_conflict_is_answered()
    ensures { TellsTheFirstConflict }
{}

/// Each entry can be written in bytes, from which it can be read. So can a table's entries in their order, after their number, and entries
/// that are read in that order are a table's. An entry takes 20 bytes.
#[tactic(auto, using(crate::specs::Laws::EntryForms::entry_fits, crate::specs::Laws::EntryForms::entry_again, crate::specs::Laws::EntryForms::entry_long, crate::proofs::TableRows::in_order_is))]
pub fn entries_have_bytes_of_their_own()
    ensures fits { (e : PlainEntry) → IsNetwork e.0 → Fits entry (plain_entry e) }
    ensures again { (e : PlainEntry) → entry_of (plain_entry e) ≡ e }
    ensures length { (e : PlainEntry) → length_of entry (plain_entry e) ≡ 20 }
    ensures table { (es : List PlainEntry) → IsTable es → Fits (ordered entry_before 4 entry) (map plain_entry es) }
    ensures sorted { (es : List PlainEntry) → in_order entry_before (map plain_entry es) ≡ true → T (is_sorted net_order es) }
{}
