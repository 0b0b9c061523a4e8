//! Anchors: names of rulesets, and rules in braces.
ghost use Rattle.std.specs.Prelude.{◌≡◌, ◌<◌, ◌++◌, IfOk, codes, decimal};
ghost use Rattle.std.specs.List.{list_any};
ghost use Rattle.pf_addr.specs.Path.Paths.{components};
ghost use Rattle.pf_parse.specs.{Stops.Gives, Reading.Takes};
ghost use Rattle.pf_parse.specs.Anchors.{is_reserved, in_quotes, anchor_opening, name_fault, path_checked, quoted_path, anchor_name, own_name, shallow, name_alone, has_slash, name_in_braces, newline_after_brace, enter, next_number, open_braces, braces_or_line, keep_rule, named_anchor, anchor, around, close_braces};

use crate::fault::{Mistake, Stop, refusal};
use crate::openings::{Direction, opening};
use crate::parser::Parser;
use crate::tree::{Braces, Product, Start, Written};
use pf_addr::path::{DEPTH_LIMIT, Path, Reference};
use pf_form::form::Kind as NameFault;
use pf_lists::Words;
use pf_tokens::{Bytes, Items, Place, Token};
use std::alloc::{AllocError, Global};

/// What an anchor's name is.
#[derive(Clone, Copy)]
pub(crate) enum Named {
    /// What an anchor rule refers to.
    Reference,
    /// The path of a ruleset.
    Path,
}

/// Whether a component of a path begins with `_`.
fn is_reserved(name: &[u8]) -> bool
    ensures { result ≡ list_any is_reserved (components name.now) }
{
    name.split(|b| *b == b'/').any(|part| begins_reserved(part))
}

fn begins_reserved(component: &[u8]) -> bool
    ensures { result ≡ is_reserved component.now }
{
    matches!(component, [b'_', ..])
}

fn has_slash(name: &[u8]) -> bool
    ensures { result ≡ has_slash name.now }
{
    name.contains(&b'/')
}

/// A name in quotes.
fn quoted(alloc: Global, name: &[u8]) -> Result<Vec<u8>, AllocError>
    ensures { IfOk result (λ word. word.items ≡ in_quotes name.now) }
{
    let mut word = Vec::from_slice(alloc, b"\"")?;
    word.extend_from_slice(name)?;
    word.push(b'"')?;
    Ok(word)
}

/// The words with which an anchor rule begins.
fn anchor_opening(
    alloc: Global,
    name: &[u8],
    direction: Option<Direction>,
    quick: bool,
) -> Result<Words, AllocError>
    ensures { IfOk result (λ words. words ≡ anchor_opening name.now direction quick) }
{
    let name = quoted(alloc, name)?;
    opening(alloc, &[b"anchor", &name], direction, quick)
}

/// What is wrong with a name, if anything.
fn name_fault(alloc: Global, named: Named, name: &[u8]) -> Result<Option<NameFault>, AllocError>
    ensures { IfOk result (λ fault. fault ≡ name_fault named name.now) }
{
    Ok(match named {
        // quotes within the name are no part of it
        Named::Reference => Reference::from_ascii(&quoted(alloc, name)?).err(),
        // the main ruleset isn't below another one
        Named::Path if name == b"-".as_slice() => Some(NameFault::BadWord),
        Named::Path => Path::from_ascii(name).err(),
    })
}

/// Checks that a token can be such a name.
fn check_path(alloc: Global, named: Named, token: &Token) -> Result<(), Stop>
    ensures { Gives result (path_checked named token.now) }
{
    let name = token.bytes(alloc)?;
    if is_reserved(name.as_slice()) {
        return Err(refusal(token.place, Mistake::ReservedAnchor));
    }
    match name_fault(alloc, named, name.as_slice())? {
        None => Ok(()),
        Some(NameFault::NameTooLong) => Err(refusal(token.place, Mistake::LongPath)),
        Some(_) => Err(refusal(token.place, Mistake::Path(name))),
    }
}

/// The name of the braces of this number, if it isn't written.
fn numbered_name(alloc: Global, number: usize) -> Result<Bytes, AllocError>
    ensures { IfOk result (λ name. name ≡ codes "_" ++ decimal number) }
{
    Items::copied(alloc, format!(in alloc; "_{number}")?.as_bytes())
}

/// The name of an anchor rule with rules in the braces of this number.
fn name_in_braces(alloc: Global, number: usize, name: Option<Token>) -> Result<Bytes, Stop>
    ensures { Gives result (name_in_braces number name) }
{
    let Some(name) = name else {
        return Ok(numbered_name(alloc, number)?);
    };
    let bytes = name.bytes(alloc)?;
    if has_slash(bytes.as_slice()) {
        return Err(refusal(name.place, Mistake::PathOfBraces));
    }
    Ok(bytes)
}

/// The number of the braces around those of this number.
fn around(braces: &[Braces], number: usize) -> usize
    ensures { result ≡ around braces.now number }
{
    if number == 0 {
        return 0;
    }
    match braces.get(number - 1) {
        Some(braces) => braces.within,
        None => 0,
    }
}

impl Parser<'_> {
    /// An anchor's name.
    #[tactic(auto, unfolding(crate::specs::Anchors::anchor_name))]
    pub(crate) fn anchor_name(&mut self, named: Named) -> Result<Token, Stop>
        ensures { Takes result self.new (anchor_name named self.old) }
    {
        let token = self.string()?;
        check_path(self.alloc(), named, &token)?;
        self.check_no_slash()?;
        Ok(token)
    }

    #[tactic(auto, unfolding(crate::specs::Anchors::quoted_path))]
    fn check_no_slash(&self) -> Result<(), Stop>
        ensures { Takes result self.now (quoted_path self.now) }
    {
        if self.next_is_symbol(b"/") {
            return Err(refusal(self.place(), Mistake::UnquotedPath));
        }
        Ok(())
    }

    /// The name of an anchor rule, if it has one.
    #[tactic(auto, unfolding(crate::specs::Anchors::own_name))]
    fn own_name(&mut self) -> Result<Option<Token>, Stop>
        ensures { Takes result self.new (own_name self.old) }
    {
        if self.next().is_string() {
            return Ok(Some(self.anchor_name(Named::Reference)?));
        }
        Ok(None)
    }

    /// How many braces are open around an anchor at this place.
    #[tactic(auto, unfolding(crate::specs::Anchors::shallow))]
    fn depth_of(&self, place: Place) -> Result<usize, Stop>
        ensures depth { Takes result self.now (shallow place self.now) }
        ensures bound { IfOk result (λ depth. depth < DEPTH_LIMIT) }
    {
        if self.depth >= DEPTH_LIMIT {
            return Err(refusal(place, Mistake::LongPath));
        }
        Ok(self.depth)
    }

    /// A line with an anchor rule, whose first word comes next. If it opens braces, the lines behind it stand in these.
    #[tactic(auto, unfolding(crate::specs::Anchors::anchor, crate::specs::Reading::token))]
    pub(crate) fn anchor(&mut self) -> Result<(), Stop>
        ensures { Takes result self.new (anchor self.old) }
    {
        let place = self.take_place();
        let depth = self.depth_of(place)?;
        let name = self.own_name()?;
        self.named_anchor(place, depth, name)
    }

    /// An anchor rule at this place, behind its name. So many braces are open around it.
    #[tactic(auto, unfolding(crate::specs::Anchors::named_anchor))]
    fn named_anchor(&mut self, place: Place, depth: usize, name: Option<Token>) -> Result<(), Stop>
        requires { depth < DEPTH_LIMIT }
        ensures { Takes result self.new (named_anchor place depth name self.old) }
    {
        let direction = self.direction();
        let quick = self.takes_word(b"quick");
        let (tests, closing) = self.tests_and_options(Start::Anchor)?;
        let within = self.within;
        let name = self.braces_or_line(place, depth, name)?;
        let opening = anchor_opening(self.alloc(), name.as_slice(), direction, quick)?;
        let product = Product::of(self.alloc(), place, opening, tests, closing)?;
        self.keep_rule(within, product)
    }

    /// Keeps a rule of the braces of this number.
    #[tactic(auto, unfolding(crate::specs::Anchors::keep_rule))]
    pub(crate) fn keep_rule(&mut self, within: usize, product: Product) -> Result<(), Stop>
        ensures { Takes result self.new (keep_rule within product self.old) }
    {
        self.tree.rules.push(Written { within, product })?;
        Ok(())
    }

    /// The name of an anchor rule, of which an open brace or the end of its line is left.
    #[tactic(auto, unfolding(crate::specs::Anchors::braces_or_line))]
    fn braces_or_line(
        &mut self,
        place: Place,
        depth: usize,
        name: Option<Token>,
    ) -> Result<Bytes, Stop>
        requires { depth < DEPTH_LIMIT }
        ensures { Takes result self.new (braces_or_line place depth name self.old) }
    {
        if self.takes_symbol(b"{") {
            return self.open_braces(place, depth, name);
        }
        self.name_alone(place, name)
    }

    /// The name of an anchor rule without braces, behind which its line ends.
    #[tactic(auto, unfolding(crate::specs::Anchors::name_alone))]
    fn name_alone(&mut self, place: Place, name: Option<Token>) -> Result<Bytes, Stop>
        ensures { Takes result self.new (name_alone place name self.old) }
    {
        let Some(name) = name else {
            return Err(refusal(place, Mistake::UnnamedAnchor));
        };
        self.end_line()?;
        Ok(name.bytes(self.alloc())?)
    }

    /// The name of an anchor rule whose brace has come.
    #[tactic(auto, unfolding(crate::specs::Anchors::open_braces))]
    fn open_braces(
        &mut self,
        place: Place,
        depth: usize,
        name: Option<Token>,
    ) -> Result<Bytes, Stop>
        requires { depth < DEPTH_LIMIT }
        ensures { Takes result self.new (open_braces place depth name self.old) }
    {
        self.newline_after_brace()?;
        let name = name_in_braces(self.alloc(), self.next_number(), name)?;
        self.enter(place, depth, name.as_slice())?;
        Ok(name)
    }

    #[tactic(auto, unfolding(crate::specs::Anchors::newline_after_brace, crate::specs::Reading::token))]
    fn newline_after_brace(&mut self) -> Result<(), Stop>
        ensures { Takes result self.new (newline_after_brace self.old) }
    {
        if !self.next_is_newline() {
            return Err(refusal(self.place(), Mistake::AfterBrace));
        }
        self.take();
        Ok(())
    }

    /// The number of the braces that open next.
    fn next_number(&self) -> usize
        ensures { result ≡ next_number self.now }
    {
        self.tree.braces.as_slice().len() + 1
    }

    /// Begins the lines in the braces of an anchor at this place, which so many are around, with this name.
    #[tactic(auto, unfolding(crate::specs::Anchors::enter))]
    fn enter(&mut self, place: Place, depth: usize, name: &[u8]) -> Result<(), Stop>
        requires { depth < DEPTH_LIMIT }
        ensures { Takes result self.new (enter place depth name.now self.old) }
    {
        let name = Items::copied(self.alloc(), name)?;
        let (within, number) = (self.within, self.next_number());
        self.tree.braces.push(Braces {
            within,
            place,
            name,
        })?;
        self.within = number;
        self.depth = depth + 1;
        Ok(())
    }

    /// Closes the innermost braces, whose brace comes next. It ends its line.
    #[tactic(auto, unfolding(crate::specs::Anchors::close_braces, crate::specs::Reading::token))]
    pub(crate) fn close_braces(&mut self) -> Result<(), Stop>
        ensures { Takes result self.new (close_braces self.old) }
    {
        self.take();
        self.within = around(self.tree.braces.as_slice(), self.within);
        self.depth = self.depth.saturating_sub(1);
        self.end_line()
    }
}
