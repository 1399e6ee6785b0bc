ghost use Rattle.std.specs.Prelude.{◌≡◌, None, Some, option_map};
ghost use Rattle.text_draft.specs.Begun.{any_open_target, any_stated_open, has_class, has_header};
ghost use Rattle.text_draft.specs.Begun.{has_rule, has_target, is_classed_at, is_open_target, target_in};

use crate::accesses::FoundAccess;
use crate::pc_writers::FoundTarget;
use arm2_decode::Register;
use statement::{Statement, Target};
use std::marker::Model;

/// What is stated so far: nothing where no statement is begun.
#[derive(Drop)]
pub(crate) struct Begun<'s> {
    pub(crate) statement: Option<&'s Statement>,
}

impl<'s> Model for Begun<'s> {
    ghost use Rattle.std.specs.Prelude.{Option, option_map};
    ghost use Rattle.statement.specs.Stated.{Stated};

    ghost Value = { Option Stated };

    ghost view = { λ begun. option_map (λ s. s.now) begun.statement };
}

/// Whether a target has 0 among its destinations, which stands for what is left open.
pub(crate) fn is_open_target(target: &Target) -> bool
    ensures { result ≡ is_open_target target.now }
{
    target.to().iter().any(|to| *to == 0)
}

// Whether the statement has a class for what the word at an address transfers by a base.
fn is_classed_at(statement: &Statement, at: u32, base: Register) -> bool
    ensures { result ≡ is_classed_at statement.now at base }
{
    statement.accesses().contains_key(&at) || statement.rule_at(at, base).is_some()
}

fn any_open_target(targets: &[Target]) -> bool
    ensures { result ≡ any_open_target targets.now }
{
    targets.iter().any(|target| is_open_target(target))
}

// Whether the statement has an open target.
fn has_open(statement: &Statement) -> bool
    ensures { result ≡ any_stated_open (Some statement.now) }
{
    any_open_target(statement.targets().values().as_slice())
}

fn states_rule(statement: &Statement, register: Register) -> bool
    ensures { result ≡ has_rule (Some statement.now) register }
{
    statement
        .rules()
        .iter()
        .any(|rule| rule.register == register)
}

fn states_loop(statement: &Statement, header: u32) -> bool
    ensures { result ≡ has_header (Some statement.now) header }
{
    statement.loops().list().iter().any(|l| l.header == header)
}

impl<'s> Begun<'s> {
    /// No statement is begun.
    pub(crate) fn nothing() -> Begun<'s>
        ensures { result ≡ None }
    {
        Begun { statement: None }
    }

    /// The statement is begun.
    pub(crate) fn of(statement: &'s Statement) -> Begun<'s>
        ensures { result ≡ Some statement.now }
    {
        Begun {
            statement: Some(statement),
        }
    }

    /// The target that is stated for the word at an address.
    pub(crate) fn target_at(&self, at: u32) -> Option<&'s Target>
        ensures { option_map (λ t. t.now) result ≡ target_in self.now at }
    {
        match self.statement {
            Some(statement) => statement.target_at(at),
            None => None,
        }
    }

    /// Whether a target is stated for the word.
    pub(crate) fn has_target(&self, found: &FoundTarget) -> bool
        ensures { result ≡ has_target self.now found.now }
    {
        self.target_at(found.at).is_some()
    }

    /// Whether an open target is stated.
    pub(crate) fn any_open(&self) -> bool
        ensures { result ≡ any_stated_open self.now }
    {
        match self.statement {
            Some(statement) => has_open(statement),
            None => false,
        }
    }

    /// Whether a class is stated for the load or store.
    pub(crate) fn has_class(&self, found: &FoundAccess) -> bool
        ensures { result ≡ has_class self.now found.now }
    {
        match self.statement {
            Some(statement) => is_classed_at(statement, found.at, found.base),
            None => false,
        }
    }

    /// Whether a rule is stated for a register, if only for a part of the handler.
    pub(crate) fn has_rule(&self, register: Register) -> bool
        ensures { result ≡ has_rule self.now register }
    {
        match self.statement {
            Some(statement) => states_rule(statement, register),
            None => false,
        }
    }

    /// Whether a loop with that header is stated.
    pub(crate) fn has_header(&self, header: u32) -> bool
        ensures { result ≡ has_header self.now header }
    {
        match self.statement {
            Some(statement) => states_loop(statement, header),
            None => false,
        }
    }

    /// Whether the word at an address is stated to be apart from loops.
    pub(crate) fn is_apart(&self, at: u32) -> bool {
        match self.statement {
            Some(statement) => statement.loops().apart().is_apart(at),
            None => false,
        }
    }
}
