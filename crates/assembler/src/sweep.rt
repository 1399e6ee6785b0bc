ghost use Rattle.std.specs.Prelude.{◌≡◌, nat_lt, ◌&&◌, ◌+◌, ◌*◌, ◌≤◌, ◌<◌};
ghost use Rattle.std.specs.Prelude.{None, IfNone, IfErr, OnOk, Ok, Err, length, map};
ghost use Rattle.std.specs.List.{list_any};
ghost use Rattle.std.specs.Option.{option_copied};
ghost use Rattle.bus_ticks.specs.declared.space.TheConstants.{SPACE_END};
ghost use Rattle.asm_text.specs.Said.{target_of};
ghost use Rattle.asm_text.specs.Source.{line_view};
ghost use Rattle.asm_text.specs.Statements.{line_of};
ghost use Rattle.assembler.specs.Sweeps.{all_placed, at_first, closed_state, label_fault};
ghost use Rattle.assembler.specs.Sweeps.{labelled_state, line_step, list_step, org_fault, is_open_at};
ghost use Rattle.assembler.specs.Sweeps.{org_step, overlaps, pending_step, place_fault, placed, said_step};
ghost use Rattle.assembler.specs.Sweeps.{target_pending, value_pending, word_pending, line_fault};
ghost use Rattle.assembler.specs.Codes.{encoded};
ghost use Rattle.assembler.specs.Views.{Faulted, pending_of, result_pending, span_of};
ghost use Rattle.assembler.specs.Views.{state_of};

use crate::encoded::encoded;
use crate::fault::{AsmFault, LineFault, lower, lowest};
use crate::item::{Item, Pending};
use crate::reference::{refer, use_fault};
use asm_text::{Code, Line, Reference, SourceStatement, TextFault, Value, read_line};
use image::{Labels, MOST_SEGMENTS, MOST_WORDS, lies_in_memory, may_hold};
use std::alloc::Global;

/// Where a source begins that has no ORG in front of its first line, in bytes.
pub const FIRST_ADDRESS: u32 = 0x8000;

/// Words side by side: the address of the first, and that after the last.
#[derive(Clone, Copy)]
pub struct Span {
    pub from: u32,
    pub to: u32,
}

/// What is known of a source after some of its lines.
#[derive(Drop)]
pub struct Sweep<'a> {
    /// The address of the next word.
    pub at: u32,
    /// Where the segment of the words before begins.
    pub start: Option<u32>,
    /// The earlier segments.
    pub closed: Vec<Span>,
    /// The number of words.
    pub words: u32,
    pub labels: Labels,
    pub items: Vec<Item<'a>>,
}

fn any_overlaps(closed: &[Span], from: u64, to: u64) -> bool
    ensures { result ≡ list_any (λ s. nat_lt s.from to && nat_lt from s.to) closed.now }
{
    closed.iter().any(|span| u64::from(span.from) < to && from < u64::from(span.to))
}

fn overlaps(closed: &[Span], from: u64, to: u64) -> bool
    ensures { result ≡ overlaps (map span_of closed.now) from to }
{
    any_overlaps(closed, from, to)
}

fn code_pending<'a>(code: Code, at: u32) -> Result<Pending<'a>, LineFault>
    ensures { result_pending result ≡ word_pending (encoded code at) }
{
    match encoded(code, at) {
        Ok(word) => Ok(Pending::Fixed(word)),
        Err(fault) => Err(fault),
    }
}

fn line_fault(fault: TextFault) -> LineFault
    ensures { result ≡ line_fault fault }
{
    match fault {
        TextFault::UnknownWord => LineFault::UnknownWord,
        TextFault::BadOperand => LineFault::BadOperand,
        _ => LineFault::NotText,
    }
}

fn at_target<'a>(reference: Reference, at: u32, target: Value<'a>) -> Result<Pending<'a>, LineFault>
    requires { at ≤ SPACE_END }
    ensures { result_pending result ≡ target_pending reference at (target_of target.entry) }
{
    match target {
        Value::Number(n) => code_pending(refer(reference, at, n), at),
        Value::Label(name) => match use_fault(reference.how) {
            None => Ok(Pending::Waits(reference, name)),
            Some(fault) => Err(fault),
        },
    }
}

fn value_at<'a>(value: Value<'a>) -> Pending<'a>
    ensures { pending_of result ≡ value_pending (target_of value.entry) }
{
    match value {
        Value::Number(n) => Pending::Fixed(n),
        Value::Label(name) => Pending::Address(name),
    }
}

impl<'a> Sweep<'a> {
    /// The state in front of the first line. It takes no memory.
    pub(crate) fn new(alloc: Global) -> Self
        ensures { state_of result ≡ at_first }
    {
        Sweep {
            at: FIRST_ADDRESS,
            start: None,
            closed: Vec::new(alloc),
            words: 0,
            labels: Labels::new(alloc),
            items: Vec::new(alloc),
        }
    }

    fn label_fault(&self, label: Option<&[u8]>) -> Option<LineFault>
        ensures { result ≡ label_fault (state_of self.now) (option_copied label.entry) }
    {
        let name = label?;
        if self.labels.get(name).is_some() {
            Some(LineFault::LabelTwice)
        } else {
            None
        }
    }

    // Why so many words cannot come next.
    fn place_fault(&self, count: usize) -> Option<LineFault>
        ensures value { result ≡ place_fault (state_of self.now) count }
        ensures room { IfNone result (self.now.at + 4 * count ≤ SPACE_END) }
        ensures few { IfNone result (self.now.words + count ≤ MOST_WORDS) }
    {
        if count > 0x100_0000 {
            return Some(LineFault::OutOfRange);
        }
        let from = u64::from(self.at);
        let to = from + 4 * count as u64;
        if !lies_in_memory(from, to) {
            return Some(LineFault::OutOfRange);
        }
        if overlaps(&self.closed, from, to) {
            return Some(LineFault::OutOfRange);
        }
        if self.words as usize + count as usize > MOST_WORDS {
            return Some(LineFault::TooLong);
        }
        if self.start.is_none() && self.closed.len() >= MOST_SEGMENTS {
            return Some(LineFault::TooLong);
        }
        None
    }

    fn is_open_at(&self, address: u32) -> bool
        ensures { result ≡ is_open_at self.now.start self.now.at address }
    {
        match self.start {
            None => false,
            Some(from) => from <= address && address < self.at,
        }
    }

    // Why an ORG cannot have an address.
    fn org_fault(&self, address: u32) -> Option<LineFault>
        ensures value { result ≡ org_fault (state_of self.now) address }
        ensures within { IfNone result (address ≤ SPACE_END) }
    {
        if !may_hold(address) {
            return Some(LineFault::OutOfRange);
        }
        let from = u64::from(address);
        if overlaps(&self.closed, from, from + 1) {
            return Some(LineFault::OutOfRange);
        }
        if self.is_open_at(address) {
            return Some(LineFault::OutOfRange);
        }
        None
    }

    // Puts a label that no earlier line has.
    #[tactic(auto, using(crate::proofs::SweepLaws::named_more))]
    fn put_label(&mut self, alloc: Global, label: Option<&[u8]>) -> Result<(), AsmFault>
        ensures ok { OnOk result
            (state_of self.new ≡ labelled_state (state_of self.old) (option_copied label.entry)) }
        ensures at { OnOk result (self.new.at ≡ self.old.at) }
        ensures words { OnOk result (self.new.words ≡ self.old.words) }
        ensures memory { IfErr result (λ fault. fault ≡ AsmFault.Memory) }
    {
        let Some(name) = label else {
            return Ok(());
        };
        match self.labels.put(alloc, name, self.at) {
            Ok(()) => Ok(()),
            Err(_) => Err(AsmFault::Memory),
        }
    }

    // Puts a word next.
    fn place(&mut self, line: usize, pending: Pending<'a>) -> Result<(), AsmFault>
        requires room { self.old.at + 4 ≤ SPACE_END }
        requires few { self.old.words < MOST_WORDS }
        ensures ok { OnOk result
            (state_of self.new ≡ placed (state_of self.old) line (pending_of pending.entry)) }
        ensures at { OnOk result (self.new.at ≡ self.old.at + 4) }
        ensures words { OnOk result (self.new.words ≡ self.old.words + 1) }
        ensures memory { IfErr result (λ fault. fault ≡ AsmFault.Memory) }
    {
        let item = Item {
            line,
            at: self.at,
            pending,
        };
        self.items.push(item)?;
        self.start = Some(self.start.unwrap_or(self.at));
        self.at += 4;
        self.words += 1;
        Ok(())
    }

    fn pending_line(
        &mut self,
        alloc: Global,
        line: usize,
        label: Option<&[u8]>,
        pending: Result<Pending<'a>, LineFault>,
    ) -> Result<(), AsmFault>
        ensures ok { OnOk result
            (pending_step (state_of self.old) line (option_copied label.entry) (result_pending pending.entry)
            ≡ Ok (state_of self.new)) }
        ensures within { OnOk result (self.new.at ≤ SPACE_END) }
        ensures fault { IfErr result
            (λ fault. Faulted fault line
            (pending_step (state_of self.old) line (option_copied label.entry)
            (result_pending pending.entry))) }
    {
        let around = lower(self.label_fault(label), self.place_fault(1));
        match pending {
            Err(fault) => Err(AsmFault::Line(lowest(fault, around), line)),
            Ok(pending) => {
                if let Some(fault) = around {
                    return Err(AsmFault::Line(fault, line));
                }
                self.put_label(alloc, label)?;
                self.place(line, pending)
            }
        }
    }

    // Ends the segment of the words before.
    fn close(&mut self) -> Result<(), AsmFault>
        ensures ok { OnOk result (state_of self.new ≡ closed_state (state_of self.old)) }
        ensures memory { IfErr result (λ fault. fault ≡ AsmFault.Memory) }
    {
        if let Some(from) = self.start {
            self.closed.push(Span { from, to: self.at })?;
        }
        Ok(())
    }

    fn org_line(
        &mut self,
        alloc: Global,
        line: usize,
        label: Option<&[u8]>,
        address: u32,
    ) -> Result<(), AsmFault>
        ensures ok { OnOk result
            (org_step (state_of self.old) (option_copied label.entry) address ≡ Ok (state_of self.new)) }
        ensures within { OnOk result (self.new.at ≤ SPACE_END) }
        ensures fault { IfErr result
            (λ fault. Faulted fault line (org_step (state_of self.old) (option_copied label.entry) address)) }
    {
        let twice = self.label_fault(label);
        let taken = self.org_fault(address);
        if let Some(fault) = lower(twice, taken) {
            return Err(AsmFault::Line(fault, line));
        }
        self.put_label(alloc, label)?;
        self.close()?;
        self.at = address;
        self.start = None;
        Ok(())
    }

    // Puts words of numbers and labels next.
    #[tactic(auto, using(crate::proofs::SweepLaws::placed_more))]
    fn place_all(&mut self, line: usize, values: &[Value<'a>]) -> Result<(), AsmFault>
        requires room { self.old.at + 4 * length values.now ≤ SPACE_END }
        requires few { self.old.words + length values.now ≤ MOST_WORDS }
        ensures ok { OnOk result
            (state_of self.new ≡ all_placed (state_of self.old) line (map target_of values.now)) }
        ensures within { OnOk result (self.new.at ≤ SPACE_END) }
        ensures memory { IfErr result (λ fault. fault ≡ AsmFault.Memory) }
    {
        for value in values {
            self.place(line, value_at(*value))?;
        }
        Ok(())
    }

    fn values_line(
        &mut self,
        alloc: Global,
        line: usize,
        label: Option<&[u8]>,
        values: &[Value<'a>],
    ) -> Result<(), AsmFault>
        ensures ok { OnOk result
            (list_step (state_of self.old) line (option_copied label.entry) (map target_of values.now)
            ≡ Ok (state_of self.new)) }
        ensures within { OnOk result (self.new.at ≤ SPACE_END) }
        ensures fault { IfErr result
            (λ fault. Faulted fault line
            (list_step (state_of self.old) line (option_copied label.entry) (map target_of values.now))) }
    {
        let around = lower(self.label_fault(label), self.place_fault(values.len()));
        if let Some(fault) = around {
            return Err(AsmFault::Line(fault, line));
        }
        self.put_label(alloc, label)?;
        self.place_all(line, values)
    }

    fn label_line(
        &mut self,
        alloc: Global,
        line: usize,
        label: Option<&[u8]>,
    ) -> Result<(), AsmFault>
        requires { self.old.at ≤ SPACE_END }
        ensures ok { OnOk result
            (said_step (state_of self.old) line (option_copied label.entry) None ≡ Ok (state_of self.new)) }
        ensures within { OnOk result (self.new.at ≤ SPACE_END) }
        ensures fault { IfErr result
            (λ fault. Faulted fault line
            (said_step (state_of self.old) line (option_copied label.entry) None)) }
    {
        if let Some(fault) = self.label_fault(label) {
            return Err(AsmFault::Line(fault, line));
        }
        self.put_label(alloc, label)
    }

    fn parsed_line(&mut self, alloc: Global, line: usize, parsed: &Line<'a>) -> Result<(), AsmFault>
        requires { self.old.at ≤ SPACE_END }
        ensures ok { OnOk result
            (line_step (state_of self.old) line (Ok (line_view parsed.now)) ≡ Ok (state_of self.new)) }
        ensures within { OnOk result (self.new.at ≤ SPACE_END) }
        ensures fault { IfErr result
            (λ fault. Faulted fault line (line_step (state_of self.old) line (Ok (line_view parsed.now)))) }
    {
        let label = parsed.label;
        match &parsed.statement {
            None => self.label_line(alloc, line, label),
            Some(SourceStatement::Code(code)) => {
                let pending = code_pending(*code, self.at);
                self.pending_line(alloc, line, label, pending)
            }
            Some(SourceStatement::Refer(reference, value)) => {
                let pending = at_target(*reference, self.at, *value);
                self.pending_line(alloc, line, label, pending)
            }
            Some(SourceStatement::Org(address)) => self.org_line(alloc, line, label, *address),
            Some(SourceStatement::Dcd(values)) => self.values_line(alloc, line, label, values),
        }
    }

    /// Goes past a line, or answers its lowest fault.
    pub(crate) fn read(
        &mut self,
        alloc: Global,
        line: usize,
        text: &'a [u8],
    ) -> Result<(), AsmFault>
        requires { self.old.at ≤ SPACE_END }
        ensures ok { OnOk result
            (line_step (state_of self.old) line (line_of text.now) ≡ Ok (state_of self.new)) }
        ensures within { OnOk result (self.new.at ≤ SPACE_END) }
        ensures fault { IfErr result
            (λ fault. Faulted fault line (line_step (state_of self.old) line (line_of text.now))) }
    {
        match read_line(alloc, text) {
            Ok(parsed) => self.parsed_line(alloc, line, &parsed),
            Err(TextFault::Memory) => Err(AsmFault::Memory),
            Err(fault) => Err(AsmFault::Line(line_fault(fault), line)),
        }
    }
}
