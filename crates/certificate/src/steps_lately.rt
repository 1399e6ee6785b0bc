//! The lines of steps that were read lately. A loop's body appears twice in a walk, so most lines have
//! been read before.

ghost use Rattle.std.specs.Prelude.{◌≡◌, ◌<◌, ◌++◌, ◌∷◌, IfSome, MatchOption};
ghost use Rattle.std.specs.Coded.{le_prop};
ghost use Rattle.certificate.specs.Words.{LineFits, StepFits, ToFits-prop, line_words, step_words};
ghost use Rattle.certificate.specs.declared.line.Line.{Line};

use crate::line::{Line, WalkLine};
use crate::line_reading::line_of;
use crate::splitting::after_front;
use crate::walk::{StepLine, To};
use control_flow::Label;

/// How many lines are kept: two for each place in 4 KB, which an address names by its bits 11 to 2.
pub(crate) const ROWS: usize = 2048;

// The words of a line, and the step that they say.
#[derive(Clone, Copy)]
struct Known<'a> {
    words: &'a [u8],
    step: StepLine,
    ghost fits: { StepFits step } by { Prim.hlevel (le_prop, ToFits-prop) },
    ghost says: { words.now ≡ step_words step },
}

/// The steps that were read lately, one for each label at an address.
#[derive(Drop)]
pub(crate) struct StepsLately<'a> {
    rows: [Option<Known<'a>>; ROWS],
    // The address at which the next step begins.
    next: u32,
}

/// Where the line of an address and a label is kept.
pub(crate) fn row_of(address: u32, label: Label) -> usize
    ensures { result < ROWS }
{
    let place = address as usize / 4 % (ROWS / 2) * 2;
    match label {
        Label::Skip => place,
        Label::Do => place + 1,
    }
}

impl<'a> StepsLately<'a> {
    /// No steps.
    pub(crate) fn new() -> StepsLately<'a> {
        StepsLately {
            rows: [None; ROWS],
            next: 0,
        }
    }

    #[inline(always)]
    fn known_as<'b>(&self, label: Label, text: &'b [u8]) -> Option<(StepLine, &'b [u8])>
        ensures { IfSome result (λ p. StepFits p.0 × (text.now ≡ step_words p.0 ++ 10 ∷ p.1.now)) }
    {
        let rows = &self.rows[..];
        let Some(row) = &rows[row_of(self.next, label)] else {
            return None;
        };
        match after_front(text, row.words) {
            Some([b'\n', rest @ ..]) => Some((row.step, rest)),
            _ => None,
        }
    }

    // The next step begins where this one leads.
    fn pass(&mut self, step: &StepLine) {
        if let To::At(address) = step.to {
            self.next = address;
        }
    }

    /// The step whose line the text begins with, where that was read lately, and what follows its line.
    #[inline(always)]
    pub(crate) fn first<'b>(&mut self, text: &'b [u8]) -> Option<(StepLine, &'b [u8])>
        ensures { IfSome result (λ p. StepFits p.0 × (text.now ≡ step_words p.0 ++ 10 ∷ p.1.now)) }
    {
        let found = match self.known_as(Label::Do, text) {
            Some(found) => found,
            None => self.known_as(Label::Skip, text)?,
        };
        self.pass(&found.0);
        Some(found)
    }

    fn keep(&mut self, words: &'a [u8], step: StepLine)
        requires fits { StepFits step }
        requires says { words.now ≡ step_words step }
    {
        let rows = &mut self.rows[..];
        rows[row_of(step.address, step.label)] = Some(Known { words, step });
    }

    /// What the words of a line say, which is kept if it is a step; `None` where no line has these words.
    pub(crate) fn line_of(&mut self, words: &'a [u8]) -> Option<Line>
        ensures { MatchOption result ((l : Line) → LineFits l → words.now ≡ line_words l → ⊥)
            (λ l. LineFits l × (words.now ≡ line_words l)) }
    {
        let line = line_of(words)?;
        if let Line::Walk(WalkLine::Step(step)) = line {
            self.keep(words, step);
            self.pass(&step);
        }
        Some(line)
    }
}
