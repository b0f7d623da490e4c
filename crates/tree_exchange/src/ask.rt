ghost use Rattle.std.specs.Prelude.{◌≡◌, ◌++◌, ℕ, List, Some, option_map, IfSome, OnOk, OnErr, if◌then◌else◌};
ghost use Rattle.std.specs.List.{AllByRecursion};
ghost use Rattle.tree_node.specs.declared.version.TreeVersion.{TreeVersion};
ghost use Rattle.tree_node.specs.declared.version.TreeVersion.TheVariants.{Two};
ghost use Rattle.tree_node.specs.Positions.{IsPosition};
ghost use Rattle.ens_base.specs.declared.epoch.Version.{Version};
ghost use Rattle.tree_exchange.specs.Asked.{ArePlaces};
ghost use Rattle.tree_exchange.specs.Asks.{started, onward, step_to, is_open as is_the_open, needs_own as needs_own_node};
ghost use Rattle.tree_exchange.specs.Covers.{Covers};

use crate::places::Places;
use crate::question::Question;
use crate::step::Step;
use ens_base::{Entry, Key, Seq};
use std::alloc::{AllocError, Global};
use std::marker::Model;
use std::mem::replace;
use synctree::ROOT;
use tree_node::{Position, TreeBody, TreeVersion};

/// An ask of one peer for the map of another: the question that is open, the positions left to ask
/// after it, and the entries received. It goes depth first, children ascending. How deep it goes is up
/// to the version of the own tree, which each call that takes an answer is told.
#[derive(Debug, Drop)]
pub struct Ask {
    /// The open question, or none if nothing is left to ask.
    current: Option<Question>,
    /// The positions left to ask after the open question, the next one first.
    left: Places,
    /// The entries received, in the order in which they came.
    received: Seq<Entry>,
}

impl Model for Ask {
    ghost use Rattle.tree_exchange.specs.Asked.{Asked, ArePlaces};
    ghost use Rattle.tree_node.specs.declared.version.TreeVersion.TheVariants.{Two};

    ghost Value = { Asked };

    ghost view = { λ a. record { current = a.current; left = a.left; received = a.received } };

    ghost invariant = { λ a. ArePlaces Two a.current a.left };
}

/// Returns the question for the whole of a position.
fn whole(at: Position) -> Question
    ensures { result ≡ Rattle.tree_exchange.specs.Asks.whole at }
{
    Question {
        position: at,
        after: None,
    }
}

/// Takes the first position left, and returns the question for the whole of it.
fn next_question(left: &mut Places) -> Option<Question>
    ensures onward { (received : List Entry) → onward left.old received ≡ record { current = result; left = left.new; received = received } }
    ensures places { AllByRecursion (IsPosition Two) left.old → ArePlaces Two result left.new }
{
    match left.next() {
        Some(at) => Some(whole(at)),
        None => None,
    }
}

/// Appends the entries. When out of memory, leaves the list unchanged.
fn append(alloc: Global, all: &mut Seq<Entry>, mut more: Vec<Entry>) -> Result<(), AllocError>
    ensures ok { OnOk result (all.new ≡ all.old ++ more.items) }
    ensures err { OnErr result (all.new ≡ all.old) }
{
    let mut items = replace(all, Seq::new(Vec::new(alloc))).into_vec();
    let result = items.append(&mut more);
    *all = Seq::new(items);
    result
}

/// Tests whether two last keys are equal.
fn same_after(a: &Option<Key>, b: &Option<Key>) -> bool
    ensures { result ≡ Rattle.tree_exchange.specs.Asks.same_after a.now b.now }
{
    match a {
        None => b.is_none(),
        Some(a) => match b {
            None => false,
            Some(b) => *a == *b,
        },
    }
}

/// Tests whether two questions are equal.
fn same_question(a: &Question, b: &Question) -> bool
    ensures { result ≡ Rattle.tree_exchange.specs.Asks.same_question a.now b.now }
{
    a.position.level == b.position.level
        && a.position.index == b.position.index
        && same_after(&a.after, &b.after)
}

/// Tests whether the body is an inner node, and may be one at the position of the tree of this version.
fn is_inner(version: TreeVersion, at: Position, body: &TreeBody) -> bool
    ensures { result ≡ Rattle.tree_exchange.specs.Asks.is_inner version at body.now }
{
    match body {
        TreeBody::Inner { .. } => at.level != version.levels(),
        TreeBody::Page { .. } => false,
        TreeBody::Damaged(_) => false,
    }
}

impl Ask {
    /// Begins an ask, with the question for the root. It covers every version of a value, in a tree of each
    /// version.
    pub fn start(alloc: Global) -> Ask
        ensures ask { result ≡ started }
        ensures covers { (tree : TreeVersion) (own : List Entry) (key : List ℕ) (v : Version) → Covers tree result own key v }
    {
        Ask {
            current: Some(whole(ROOT)),
            left: Places::new(alloc),
            received: Seq::new(Vec::new(alloc)),
        }
    }

    /// Returns the open question, or `None` if the ask is done.
    pub fn question(&self) -> Option<&Question>
        ensures question { option_map (λ q. q.now) result ≡ self.now.current }
        ensures position { IfSome result (λ q. IsPosition Two q.now.position) }
    {
        self.current.as_ref()
    }

    /// Returns the entries received, in the order in which they came.
    pub fn entries(&self) -> &[Entry]
        ensures { result.now ≡ self.now.received }
    {
        self.received.as_slice()
    }

    /// Returns the entries received, and ends the ask.
    pub fn into_entries(self) -> Seq<Entry>
        ensures { result ≡ self.received }
    {
        let Ask {
            current: _current,
            left: _left,
            received,
        } = self;
        received
    }

    /// Tests whether the question is the open one.
    pub fn is_open(&self, question: &Question) -> bool
        ensures { result ≡ is_the_open self.now.current question.now }
    {
        match &self.current {
            None => false,
            Some(current) => same_question(current, question),
        }
    }

    /// Tests whether the own node at the position, in the own tree of this version, is needed to take
    /// the body.
    pub fn needs_own(&self, question: &Question, body: &TreeBody, version: TreeVersion) -> bool
        ensures { result ≡ needs_own_node version question.now body.now self.now }
    {
        self.is_open(question) && is_inner(version, question.position, body)
    }

    /// Goes on with the first position left, or ends.
    fn go_on(&mut self)
        ensures { self.new ≡ onward self.old.left self.old.received }
    {
        self.current = next_question(&mut self.left);
    }

    /// Goes on with the children of an inner node, and after them with what was left before. When out
    /// of memory, leaves the ask unchanged.
    pub(crate) fn go_down(&mut self, children: Vec<Position>) -> Result<(), AllocError>
        requires { AllByRecursion (IsPosition Two) children.items }
        ensures ok { OnOk result (self.new ≡ onward (children.items ++ self.old.left) self.old.received) }
        ensures err { OnErr result (self.new ≡ self.old) }
    {
        self.left.put_first(children)?;
        self.go_on();
        Ok(())
    }

    /// Keeps the entries of a page. Goes on past the last key of the page if more entries follow, and
    /// otherwise with the next position. When out of memory, leaves the ask unchanged.
    pub(crate) fn go_past(
        &mut self,
        alloc: Global,
        page: Vec<Entry>,
        at: Position,
        after: Option<Key>,
        more: bool,
    ) -> Result<(), AllocError>
        requires { IsPosition Two at }
        ensures ok { OnOk result (self.new ≡ (if more
            then record {
              current = Some (record { position = at; after = after });
              left = self.old.left;
              received = self.old.received ++ page.items;
            } else onward self.old.left (self.old.received ++ page.items))) }
        ensures err { OnErr result (self.new ≡ self.old) }
    {
        append(alloc, &mut self.received, page)?;
        if more {
            self.current = Some(Question {
                position: at,
                after,
            });
        } else {
            self.go_on();
        }
        Ok(())
    }

    /// Returns the step after an answer was taken.
    pub(crate) fn step(&self) -> Step
        ensures { result ≡ step_to self.now.current }
    {
        match self.current {
            Some(_) => Step::Next,
            None => Step::Done,
        }
    }
}
