//! Laws of hosts. Each function does nothing; its contract is what is proved.
ghost use Rattle.std.specs.Prelude.{◌≡◌, Ok};
ghost use Rattle.pf_form.specs.Form.Words.{Word};
ghost use Rattle.pf_rule.specs.declared.host.host.Host.{Host};
ghost use Rattle.pf_rule.specs.Host.Hosts.{SpellsHost, host_of};

/// A word is read as a host exactly where it spells a network or a table, or one with a `!` joined to it.
#[tactic(auto, using(crate::specs::Laws::Host::Hosts::host_found, crate::specs::Laws::Host::Hosts::host_only))]
pub fn host_words_are_read_as_spelled()
    ensures read { (w : Word) (h : Host) → host_of w ≡ Ok h → SpellsHost w h }
    ensures spelled { (w : Word) (h : Host) → SpellsHost w h → host_of w ≡ Ok h }
{}
