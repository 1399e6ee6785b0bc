//! Right certificates with lines exchanged, repeated and dropped, and digits turned by one: no other bound
//! than the greatest is accepted.

use crate::numbers::Numbers;
use arcwcet::{MemoryOutput, ReportFault, SourceFile, bound_report, check_report};
use samples::{branch, call_twice, countdown, nested_countdown};
use std::alloc::{AllocError, Global};
use std::test::Fail;

// A source, its statement and its certificate.
type Handler = (&'static [u8], &'static [u8], &'static [u8]);

const HANDLERS: [Handler; 4] = [
    (branch::SOURCE, branch::STATEMENT, branch::CERTIFICATE),
    (
        countdown::SOURCE,
        countdown::STATEMENT,
        countdown::CERTIFICATE,
    ),
    (
        nested_countdown::SOURCE,
        nested_countdown::STATEMENT,
        nested_countdown::CERTIFICATE,
    ),
    (
        call_twice::SOURCE,
        call_twice::STATEMENT,
        call_twice::CERTIFICATE,
    ),
];

// How many forgeries are made of each certificate.
const FORGERIES: u32 = 2000;

// The verdicts No. There is none for other prices, which no changed line brings in.
const OBJECTIONS: [&[u8]; 9] = [
    b"no: MissingPlace\n",
    b"no: ExtraPlace\n",
    b"no: NumberTooLarge\n",
    b"no: EdgeTooHeavy\n",
    b"no: LeaveTooHeavy\n",
    b"no: RoundTooHeavy\n",
    b"no: BrokenWalk\n",
    b"no: WalkOverBound\n",
    b"no: WalkCost\n",
];

// The lines of a certificate, each with its end.
fn lines_of(alloc: Global, text: &[u8]) -> Result<Vec<&[u8]>, AllocError> {
    let mut lines = Vec::new(alloc);
    for line in text.split_inclusive(|byte| *byte == b'\n') {
        lines.push(line)?;
    }
    Ok(lines)
}

fn index_below(numbers: &mut Numbers, limit: usize) -> usize {
    numbers.below(u32::try_from(limit).unwrap_or(0)) as usize
}

// Exchanges two lines, repeats one at another place, or drops one.
fn forge_line(numbers: &mut Numbers, lines: &mut Vec<&[u8]>) -> Result<(), AllocError> {
    let one = index_below(numbers, lines.len());
    let other = index_below(numbers, lines.len());
    if one >= lines.len() || other >= lines.len() {
        return Ok(());
    }
    match numbers.below(3) {
        0 => lines.swap(one, other),
        1 => lines.insert(other, lines[one])?,
        _ => {
            lines.remove(one);
        }
    }
    Ok(())
}

// Turns a digit by one, where there is one at the place that is hit.
fn forge_digit(numbers: &mut Numbers, text: &mut [u8]) {
    let at = index_below(numbers, text.len());
    let is_up = numbers.below(2) == 0;
    if let Some(byte) = text.get_mut(at) {
        match *byte {
            b'0'..=b'8' if is_up => *byte += 1,
            b'1'..=b'9' if !is_up => *byte -= 1,
            _ => {}
        }
    }
}

fn forged(alloc: Global, numbers: &mut Numbers, text: &[u8]) -> Result<Vec<u8>, AllocError> {
    let mut lines = lines_of(alloc, text)?;
    for _ in 0..numbers.below(3) {
        forge_line(numbers, &mut lines)?;
    }
    let mut forged = Vec::new(alloc);
    for line in &lines {
        forged.extend_from_slice(line)?;
    }
    for _ in 0..numbers.below(6) {
        forge_digit(numbers, &mut forged);
    }
    Ok(forged)
}

// What the checker answers to a certificate.
#[derive(Clone, Copy)]
enum Answer {
    Yes,
    No,
    /// It is no certificate.
    Refused,
    /// None of these, or more than one.
    Wrong,
}

fn answer_to(alloc: Global, handler: &Handler, text: &[u8]) -> Result<Answer, ReportFault> {
    let (source, statement, _) = handler;
    let mut out = MemoryOutput::with_room(alloc, 0)?;
    let found = check_report(
        alloc,
        SourceFile::plain(source),
        statement,
        text,
        None,
        &mut out,
    );
    let said = out.bytes();
    Ok(match found {
        Ok(true) if said == b"yes\n".as_slice() => Answer::Yes,
        Ok(false) if OBJECTIONS.contains(&said) => Answer::No,
        Err(ReportFault::Cert(_)) if said.is_empty() => Answer::Refused,
        _ => Answer::Wrong,
    })
}

// The second line, which has the bound.
fn bound_line(text: &[u8]) -> Option<&[u8]> {
    text.split_inclusive(|byte| *byte == b'\n').nth(1)
}

// How often the checker answers what, and the first forgery to which its answer is wrong.
#[derive(Clone, Copy, Debug)]
struct Answers {
    yes: u32,
    no: u32,
    refused: u32,
    first_wrong: Option<u32>,
}

impl Answers {
    fn add(&mut self, number: u32, answer: Answer, has_bound: bool) {
        match answer {
            Answer::Yes if has_bound => self.yes = self.yes.saturating_add(1),
            Answer::No => self.no = self.no.saturating_add(1),
            Answer::Refused => self.refused = self.refused.saturating_add(1),
            _ => self.first_wrong = self.first_wrong.or(Some(number)),
        }
    }

    fn are_right(&self) -> bool {
        self.no > 0 && self.refused > 0 && self.first_wrong.is_none()
    }
}

// The answers to the forgeries that are another text than the right certificate.
fn answers_to_forgeries(alloc: Global, handler: &Handler) -> Result<Answers, ReportFault> {
    let (_, _, right) = handler;
    let mut numbers = Numbers::new(23);
    let mut answers = Answers {
        yes: 0,
        no: 0,
        refused: 0,
        first_wrong: None,
    };
    for number in 0..FORGERIES {
        let text = forged(alloc, &mut numbers, right)?;
        if text.as_slice() != *right {
            let has_bound = bound_line(&text) == bound_line(right);
            answers.add(number, answer_to(alloc, handler, &text)?, has_bound);
        }
    }
    Ok(answers)
}

// Whether the right certificate is what is printed, and is accepted.
fn is_right(alloc: Global, handler: &Handler) -> Result<bool, ReportFault> {
    let (source, statement, right) = handler;
    let mut out = MemoryOutput::with_room(alloc, 0)?;
    bound_report(alloc, SourceFile::plain(source), statement, None, &mut out)?;
    let is_accepted = matches!(answer_to(alloc, handler, right)?, Answer::Yes);
    Ok(out.bytes() == *right && is_accepted)
}

// Of each handler whether its certificate is right, and the answers to its forgeries.
fn judged(alloc: Global, handlers: &[Handler]) -> Result<Vec<(bool, Answers)>, Fail> {
    let mut judged = Vec::new(alloc);
    for handler in handlers {
        let row = (
            is_right(alloc, handler)?,
            answers_to_forgeries(alloc, handler)?,
        );
        judged.push(row)?;
    }
    Ok(judged)
}

#[test]
fn forged_certificates(rt: HostRuntime) -> Result<(), Fail> {
    let judged = judged(rt.alloc(), &HANDLERS)?;
    for (number, (is_right, answers)) in judged.iter().enumerate() {
        assert!(rt;
            *is_right && answers.are_right(),
            "handler {number}: {answers:?}"
        );
    }
    Ok(())
}
