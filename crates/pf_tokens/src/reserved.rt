//! Words that pf.conf(5) reserves.
ghost use Rattle.std.specs.{Prelude.{◌≡◌}, List.list_any, Str.bytes_eq};
ghost use Rattle.pf_tokens.specs.{declared.reserved.TheConstants.{STATEMENTS, SETTINGS, TESTS, ANSWERS, STATES, ADDRESSES, QUEUES}, Places.text_of, Words.is_keyword};

use crate::place::Placed;
use crate::texts::same_bytes;

// The keywords of pf.conf(5)'s grammar. None can stand for a string without quotes. They are in lists by what they are for, each in
// alphabetical order, since the proof of what reads a constant takes long if that holds many texts.

/// Words with which a line begins, and where a table's entries come from.
pub(crate) const STATEMENTS: [&[u8]; 19] = [
    b"altq",
    b"anchor",
    b"antispoof",
    b"binat",
    b"binat-anchor",
    b"block",
    b"file",
    b"include",
    b"load",
    b"nat",
    b"nat-anchor",
    b"no",
    b"pass",
    b"queue",
    b"rdr",
    b"rdr-anchor",
    b"scrub",
    b"set",
    b"table",
];

/// Words of options, and of the scope of states.
pub(crate) const SETTINGS: [&[u8]; 19] = [
    b"block-policy",
    b"debug",
    b"fail-policy",
    b"fingerprints",
    b"floating",
    b"global",
    b"hostid",
    b"if-bound",
    b"interval",
    b"keepcounters",
    b"limit",
    b"loginterface",
    b"optimization",
    b"require-order",
    b"ruleset-optimization",
    b"skip",
    b"state-defaults",
    b"state-policy",
    b"timeout",
];

/// Words of what a packet is tested for.
pub(crate) const TESTS: [&[u8]; 25] = [
    b"all",
    b"any",
    b"code",
    b"flags",
    b"fragment",
    b"from",
    b"group",
    b"icmp-type",
    b"icmp6-type",
    b"in",
    b"inet",
    b"inet6",
    b"no-route",
    b"on",
    b"os",
    b"out",
    b"port",
    b"prio",
    b"probability",
    b"proto",
    b"to",
    b"tos",
    b"ttl",
    b"urpf-failed",
    b"user",
];

/// Words of what is done with a packet, of routes and of tags.
pub(crate) const ANSWERS: [&[u8]; 19] = [
    b"allow-opts",
    b"divert-reply",
    b"divert-to",
    b"drop",
    b"dup-to",
    b"fastroute",
    b"label",
    b"log",
    b"quick",
    b"reply-to",
    b"return",
    b"return-icmp",
    b"return-icmp6",
    b"return-rst",
    b"route",
    b"route-to",
    b"rtable",
    b"tag",
    b"tagged",
];

/// Words of states and of what is tracked with them.
pub(crate) const STATES: [&[u8]; 15] = [
    b"flush",
    b"keep",
    b"max",
    b"max-src-conn",
    b"max-src-conn-rate",
    b"max-src-nodes",
    b"max-src-states",
    b"modulate",
    b"no-sync",
    b"overload",
    b"rule",
    b"sloppy",
    b"source-track",
    b"state",
    b"synproxy",
];

/// Words of how addresses are translated, and of how packets are made normal.
pub(crate) const ADDRESSES: [&[u8]; 15] = [
    b"bitmask",
    b"crop",
    b"drop-ovl",
    b"map-e-portset",
    b"max-mss",
    b"min-ttl",
    b"no-df",
    b"random",
    b"random-id",
    b"reassemble",
    b"round-robin",
    b"set-tos",
    b"source-hash",
    b"static-port",
    b"sticky-address",
];

/// Words of queues.
pub(crate) const QUEUES: [&[u8]; 15] = [
    b"bandwidth",
    b"buckets",
    b"cbq",
    b"codelq",
    b"fairq",
    b"hfsc",
    b"hogs",
    b"linkshare",
    b"priority",
    b"priq",
    b"qlimit",
    b"realtime",
    b"target",
    b"tbrsize",
    b"upperlimit",
];

/// Whether these bytes are one of the words.
fn is_among(words: &[&[u8]], text: &[Placed]) -> bool
    ensures { result ≡ list_any (λ word. bytes_eq (text_of text.now) word.now) words.now }
{
    words.iter().any(|word| same_bytes(text, word))
}

fn is_of_statements(text: &[Placed]) -> bool
    ensures { result ≡ list_any (λ word. bytes_eq (text_of text.now) word.now) STATEMENTS }
{
    is_among(&STATEMENTS, text)
}

fn is_of_settings(text: &[Placed]) -> bool
    ensures { result ≡ list_any (λ word. bytes_eq (text_of text.now) word.now) SETTINGS }
{
    is_among(&SETTINGS, text)
}

fn is_of_tests(text: &[Placed]) -> bool
    ensures { result ≡ list_any (λ word. bytes_eq (text_of text.now) word.now) TESTS }
{
    is_among(&TESTS, text)
}

fn is_of_answers(text: &[Placed]) -> bool
    ensures { result ≡ list_any (λ word. bytes_eq (text_of text.now) word.now) ANSWERS }
{
    is_among(&ANSWERS, text)
}

fn is_of_states(text: &[Placed]) -> bool
    ensures { result ≡ list_any (λ word. bytes_eq (text_of text.now) word.now) STATES }
{
    is_among(&STATES, text)
}

fn is_of_addresses(text: &[Placed]) -> bool
    ensures { result ≡ list_any (λ word. bytes_eq (text_of text.now) word.now) ADDRESSES }
{
    is_among(&ADDRESSES, text)
}

fn is_of_queues(text: &[Placed]) -> bool
    ensures { result ≡ list_any (λ word. bytes_eq (text_of text.now) word.now) QUEUES }
{
    is_among(&QUEUES, text)
}

/// Whether these bytes are a keyword.
#[tactic(auto, unfolding(crate::specs::Words::is_keyword))]
pub(crate) fn is_keyword(text: &[Placed]) -> bool
    ensures { result ≡ is_keyword (text_of text.now) }
{
    is_of_statements(text)
        || is_of_settings(text)
        || is_of_tests(text)
        || is_of_answers(text)
        || is_of_states(text)
        || is_of_addresses(text)
        || is_of_queues(text)
}
