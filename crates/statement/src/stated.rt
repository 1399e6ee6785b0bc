ghost use Rattle.std.specs.Prelude.{◌≡◌, ◌<◌, ◌≤◌, length, All, AllPairs, IfOk, MatchOption};
ghost use Rattle.std.specs.Prelude.{is_some, option_map};
ghost use Rattle.std.specs.List.{list_all, position};
ghost use Rattle.bus_ticks.specs.declared.space.TheConstants.{SPACE_END};
ghost use Rattle.shifter.specs.declared.shifts.TheConstants.{MOST_MULTIPLY_CYCLES};
ghost use Rattle.statement.specs.Stated.{IsLoop, IsRule, ShareNoWord, also_apart, class_at, cycles_at};
ghost use Rattle.statement.specs.Stated.{is_placed, is_ruled, ruled_class, taken_at, target_of};
ghost use Rattle.statement.specs.Stated.{with_destinations};
ghost use Rattle.statement.specs.declared.reading.TheConstants.{MOST_LOOPS};

use crate::apart::{ApartStretch, ApartWords};
use crate::stretches::{Stretches, value_at};
use arm2_decode::Register;
use bus_ticks::Class;
use indexmap::IndexMap;
use shifter::MOST_MULTIPLY_CYCLES;
use std::alloc::{AllocError, Global};
use std::marker::Model;

/// A loop that an author states: the addresses of its header and of its first and last instruction, and the
/// most back edges that one stay takes.
#[derive(Clone, Copy, Debug, PartialEq, Eq)]
pub struct Loop {
    pub header: u32,
    pub first: u32,
    pub last: u32,
    pub bound: u32,
}

/// Whether the words of each loop lie where they may.
pub(crate) fn are_placed(loops: &[Loop], apart: &ApartWords) -> bool
    ensures { result ≡ list_all (is_placed apart.now) loops.now }
{
    loops
        .iter()
        .all(|l| apart.may_stand(l.first, l.header, l.last))
}

/// The loops that an author states, and the words that are apart from them.
#[derive(Drop)]
pub struct StatedLoops {
    pub(crate) list: Vec<Loop>,
    pub(crate) apart: ApartWords,
}

impl Model for StatedLoops {
    ghost use Rattle.statement.specs.Stated.{StatedLoops};

    ghost Value = { StatedLoops };

    ghost use Rattle.statement.specs.StatementParts.{loops_of};

    ghost view = { loops_of };

    ghost use Rattle.statement.specs.StatementParts.{AreStoredLoops};

    ghost invariant = { AreStoredLoops };
}

impl StatedLoops {
    /// The loops, in the order of the text.
    pub fn list(&self) -> &[Loop]
        ensures value { result.now ≡ self.now.list }
        ensures within { All (IsLoop self.now.apart) result.now }
        ensures few { length result.now ≤ MOST_LOOPS }
    {
        &self.list
    }

    /// The words that are apart from them.
    pub fn apart(&self) -> &ApartWords
        ensures { result.now ≡ self.now.apart }
    {
        &self.apart
    }

    /// The same loops, with more words apart from them: none, where then the words of a loop may not be a
    /// loop's.
    ///
    /// # Errors
    ///
    /// An allocation failed.
    pub fn also_apart(
        &self,
        alloc: Global,
        more: &[ApartStretch],
    ) -> Result<Option<StatedLoops>, AllocError>
        ensures { IfOk result (λ loops. loops ≡ also_apart self.now more.now) }
    {
        let apart = self.apart.also(alloc, more)?;
        if !are_placed(&self.list, &apart) {
            return Ok(None);
        }
        let list = self.list.to_vec(alloc)?;
        Ok(Some(StatedLoops { list, apart }))
    }
}

/// A class that an author states for what all words of a part of the handler transfer by one base register:
/// those from the first address to the last that have no access of their own.
#[derive(Clone, Copy, Debug, PartialEq, Eq)]
pub struct BaseRule {
    pub register: Register,
    pub first: u32,
    pub last: u32,
    pub class: Class,
}

/// What an author states of a word that has a condition: which of its two ways is taken.
#[derive(Clone, Copy, Debug, PartialEq, Eq)]
pub enum Taken {
    /// It is always done.
    Always,
    /// It is never done.
    Never,
}

/// What a word that writes R15 may be stated to do.
#[derive(Clone, Copy)]
pub enum TargetKind {
    /// It goes on at one of the destinations, inside the same calls.
    Jump,
    /// It calls one of the destinations.
    Call,
    /// It goes past the last call, or out of the handler where there is none.
    Return,
    /// It leaves the handler.
    Leave,
}

/// What a word that writes R15 does where no target is stated for it.
#[derive(Clone, Copy, Debug, PartialEq, Eq)]
pub enum Returns {
    /// It returns.
    Assumed,
    /// It may not be: each such word has a stated target, or the handler is refused.
    Stated,
}

/// What a word that writes R15 is stated to do. A return and a leave have no destinations.
#[derive(Drop)]
pub struct Target {
    pub(crate) kind: TargetKind,
    pub(crate) to: Vec<u32>,
}

impl Model for Target {
    ghost use Rattle.std.specs.Prelude.{◌<◌, All};
    ghost use Rattle.bus_ticks.specs.declared.space.TheConstants.{SPACE_END};
    ghost use Rattle.statement.specs.Stated.{Target};

    ghost Value = { Target };

    ghost view = { λ target. record { kind = target.kind; to = target.to.items } };

    ghost invariant = { λ target. All (λ a. a < SPACE_END) target.to.items };
}

impl Target {
    /// What the word does.
    pub fn kind(&self) -> TargetKind
        ensures { result ≡ self.now.kind }
    {
        self.kind
    }

    // Exchanges its destinations with the list.
    fn swap_to(&mut self, to: &mut Vec<u32>)
        requires { All (λ a. a < SPACE_END) to.old.items }
        ensures value { self.new ≡ record { kind = self.old.kind; to = to.old.items } }
        ensures back { to.new.items ≡ self.old.to }
    {
        std::mem::swap(&mut self.to, to);
    }

    /// The addresses to which a jump or a call goes, in the text's order.
    pub fn to(&self) -> &[u32]
        ensures value { result.now ≡ self.now.to }
        ensures small { All (λ a. a < SPACE_END) self.now.to }
    {
        &self.to
    }
}

/// What an author states of a handler.
#[derive(Drop)]
pub struct Statement {
    pub(crate) entry: u32,
    pub(crate) leave: Class,
    pub(crate) returns: Returns,
    pub(crate) loops: StatedLoops,
    pub(crate) targets: IndexMap<u32, Target>,
    pub(crate) accesses: IndexMap<u32, Class>,
    pub(crate) rules: Vec<BaseRule>,
    pub(crate) multiplies: IndexMap<u32, u32>,
    pub(crate) branches: IndexMap<u32, Taken>,
    // the rules' numbers, by their registers and parts
    pub(crate) index: Stretches<usize>,
}

impl Model for Statement {
    ghost use Rattle.statement.specs.Stated.{Stated};

    ghost Value = { Stated };

    ghost use Rattle.statement.specs.StatementParts.{stated_of};

    ghost view = { stated_of };

    ghost use Rattle.statement.specs.StatementParts.{IsStored};

    ghost invariant = { IsStored };
}

impl Statement {
    /// The address of the handler's first instruction.
    pub fn entry(&self) -> u32
        ensures value { result ≡ self.now.entry }
    {
        self.entry
    }

    /// The class of the addresses to which the handler leaves.
    pub fn leave(&self) -> Class
        ensures { result ≡ self.now.leave }
    {
        self.leave
    }

    /// Whether a word that writes R15 and has no stated target returns, or must have one.
    pub fn returns(&self) -> Returns
        ensures { result ≡ self.now.returns }
    {
        self.returns
    }

    /// The loops, and the words that are apart from them.
    pub fn loops(&self) -> &StatedLoops
        ensures { result.now ≡ self.now.loops }
    {
        &self.loops
    }

    /// The target that is stated for the word at an address.
    pub fn target_at(&self, address: u32) -> Option<&Target>
        ensures value { option_map (λ target. target.now) result ≡ target_of self.now address }
    {
        self.targets.get(&address)
    }

    /// Exchanges the destinations of the target that is stated for the word at an address with the list, and
    /// says whether one is stated there. Where none is, nothing changes.
    pub fn swap_destinations(&mut self, address: u32, to: &mut Vec<u32>) -> bool
        requires { All (λ a. a < SPACE_END) to.old.items }
        ensures found { result ≡ is_some (target_of self.old address) }
        ensures value { self.new ≡ with_destinations self.old address to.old.items }
        ensures back { MatchOption (target_of self.old address) (to.new ≡ to.old)
            (λ target. to.new.items ≡ target.to) }
    {
        match self.targets.get_mut(&address) {
            Some(target) => {
                target.swap_to(to);
                true
            }
            None => false,
        }
    }

    /// The targets by the addresses of their words, in the order of the text.
    pub fn targets(&self) -> &IndexMap<u32, Target>
        ensures { result.now.entries ≡ self.now.targets }
    {
        &self.targets
    }

    /// The classes that are stated by the addresses of the words that transfer, in the order of the text.
    pub fn accesses(&self) -> &IndexMap<u32, Class>
        ensures { result.now.entries ≡ self.now.accesses }
    {
        &self.accesses
    }

    /// The rules for base registers, in the order of the text. No two are for one register at one address.
    pub fn rules(&self) -> &[BaseRule]
        ensures value { result.now ≡ self.now.rules }
        ensures within { All IsRule result.now }
        ensures disjoint { AllPairs ShareNoWord result.now }
    {
        &self.rules
    }

    /// The most cycles, 1 to 16, that are stated of multiplies, by the addresses of their words, in the order
    /// of the text.
    pub fn multiplies(&self) -> &IndexMap<u32, u32>
        ensures { result.now.entries ≡ self.now.multiplies }
    {
        &self.multiplies
    }

    /// Which way is stated of words with a condition, by their addresses, in the order of the text.
    pub fn branches(&self) -> &IndexMap<u32, Taken>
        ensures { result.now.entries ≡ self.now.branches }
    {
        &self.branches
    }

    /// The class that is stated for what the word at an address transfers by a base register: that of its
    /// access, else that of the rule for the register there, and any where neither is stated.
    pub fn class_at(&self, address: u32, base: Option<Register>) -> Class
        ensures { result ≡ class_at self.now address base }
    {
        match self.accesses.get(&address) {
            Some(class) => *class,
            None => self.ruled_class(address, base).unwrap_or(Class::Any),
        }
    }

    // The class of the rule for the register there.
    fn ruled_class(&self, address: u32, base: Option<Register>) -> Option<Class>
        ensures { result ≡ ruled_class self.now.rules address base }
    {
        let number = self.rule_at(address, base?)?;
        Some(self.rules[number].class)
    }

    /// Which of the rules, by its number from 0, is for a base register at an address.
    pub fn rule_at(&self, address: u32, base: Register) -> Option<usize>
        ensures { result ≡ position (is_ruled base address) self.now.rules }
    {
        value_at(&self.index, base, address)
    }

    /// The most cycles of a multiply at an address: 16 where none are stated.
    pub fn cycles_at(&self, address: u32) -> u32
        ensures value { result ≡ cycles_at self.now address }
        ensures some { 1 ≤ result }
        ensures few { result ≤ MOST_MULTIPLY_CYCLES }
    {
        self.multiplies
            .get(&address)
            .copied()
            .unwrap_or(MOST_MULTIPLY_CYCLES)
    }

    /// Which way is stated of the word at an address.
    pub fn taken_at(&self, address: u32) -> Option<Taken>
        ensures { result ≡ taken_at self.now address }
    {
        self.branches.get(&address).copied()
    }
}
