//! Where hosts stand among a file's tokens.
ghost use Rattle.std.specs.Prelude.{◌≡◌, ◌≤◌, ◌<◌, ◌+◌, ◌-◌, ◌^◌};
ghost use Rattle.pf_values.specs.Interfaces.Hosts.{beginning, takes_host, takes_list, within_after, within_closed, context_after, context_after_host};

use pf_tokens::Token;

/// What may have hosts.
#[derive(Clone, Copy, Debug, PartialEq, Eq)]
pub(crate) enum Within {
    /// Nothing.
    Nothing,
    /// A rule's source or destination, which comes next.
    Side,
    /// A table, in its lists.
    Table,
    /// Nothing up to the end of the line: `from` has a file behind it.
    Load,
}

/// What is known between two tokens.
#[derive(Clone, Copy, Debug, PartialEq, Eq)]
pub(crate) struct Context {
    pub(crate) within: Within,
    /// In how many lists of hosts.
    pub(crate) deep: usize,
    /// Whether the next token belongs to a `<` or a `!` before it: a table's name, or what is negated.
    pub(crate) is_bound: bool,
}

impl Context {
    /// Before a file's first token.
    pub(crate) fn beginning() -> Context
        ensures { result ≡ beginning }
    {
        Context {
            within: Within::Nothing,
            deep: 0,
            is_bound: false,
        }
    }

    /// Whether the next token may begin a host.
    pub(crate) fn takes_host(self) -> bool
        ensures { result ≡ takes_host self }
    {
        !self.is_bound && (self.deep > 0 || self.within == Within::Side)
    }

    /// Whether a list of hosts may begin here.
    fn takes_list(self) -> bool
        ensures { result ≡ takes_list self }
    {
        self.within == Within::Side || self.within == Within::Table
    }

    /// What may have hosts behind the end of a list.
    fn within_closed(self) -> Within
        ensures { result ≡ within_closed self }
    {
        if self.deep == 1 && self.within == Within::Side {
            Within::Nothing
        } else {
            self.within
        }
    }

    /// Behind a token that is no part of a mention.
    #[tactic(auto, unfolding(crate::specs::Interfaces::Hosts::context_after))]
    pub(crate) fn context_after(self, token: &Token) -> Context
        requires { self.deep + 1 < 2 ^ 64 }
        ensures { result ≡ context_after token.now self }
    {
        let (within, deep) = (self.within, self.deep);
        if token.is_symbol(b"{") && self.takes_list() {
            let deep = deep + 1;
            return Context {
                within,
                deep,
                is_bound: false,
            };
        }
        if deep == 0 {
            return Context {
                within: within.within_after(token),
                deep,
                is_bound: false,
            };
        }
        if token.is_symbol(b"}") {
            return Context {
                within: self.within_closed(),
                deep: deep - 1,
                is_bound: false,
            };
        }
        Context {
            within,
            deep,
            is_bound: token.is_symbol(b"<") || token.is_symbol(b"!"),
        }
    }

    /// Behind a host.
    pub(crate) fn context_after_host(self) -> Context
        ensures { result ≡ context_after_host self }
    {
        if self.deep == 0 {
            Context::beginning()
        } else {
            self
        }
    }
}

impl Within {
    /// What comes behind a token outside lists.
    fn within_after(self, token: &Token) -> Within
        ensures { result ≡ within_after self token.now }
    {
        if token.is_newline() {
            return Within::Nothing;
        }
        if self == Within::Load {
            return Within::Load;
        }
        if token.is_word(b"from") || token.is_word(b"to") {
            return Within::Side;
        }
        if token.is_word(b"load") {
            return Within::Load;
        }
        if self == Within::Table || token.is_word(b"table") {
            return Within::Table;
        }
        Within::Nothing
    }
}
