//! What a load leaves. The function does nothing; its contract is the law.
ghost use Rattle.pf_load.specs.Laws.{LoadsExactly};

/// After the commit of a load that went through, its rulesets have exactly the file's rules, and its tables the file's entries, each once; all
/// other rulesets and tables are as they were.
pub fn a_load_replaces_what_it_names()
    ensures { LoadsExactly }
{}
