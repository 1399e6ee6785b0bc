ghost use Rattle.std.specs.Prelude.{◌≡◌, ◌==◌, [], IfOk};
ghost use Rattle.certificate.specs.Drafts.{TakesWalk, nest_of, walk_so_far};
ghost use Rattle.certificate.specs.Walk.{cert_walk_lines, outside};

use crate::line::WalkLine;
use crate::walk::{CertItem, CertWalk};
use loop_bounds::MOST_INSTANCES;
use std::alloc::{AllocError, Global};

/// A repeat that has not ended: the items before it, and how often its body is taken.
#[derive(Drop)]
pub struct OpenRepeat {
    pub before: Vec<CertItem>,
    pub count: u32,
}

/// A walk of which some lines are read: the open repeats, the outermost first, and the items of the
/// innermost.
#[derive(Drop)]
pub struct OpenWalk {
    pub opened: Vec<OpenRepeat>,
    pub items: Vec<CertItem>,
}

impl OpenWalk {
    /// The walk of no line. It takes no memory.
    pub(crate) fn new(alloc: Global) -> OpenWalk
        ensures lines { walk_so_far result ≡ [] }
        ensures nest { nest_of result ≡ outside }
    {
        OpenWalk {
            opened: Vec::new(alloc),
            items: Vec::new(alloc),
        }
    }

    /// Takes the next line, and answers whether it may follow.
    #[inline(always)]
    pub(crate) fn take(&mut self, alloc: Global, line: WalkLine) -> Result<bool, AllocError>
        ensures { IfOk result (TakesWalk self.old self.new line) }
    {
        match line {
            WalkLine::Step(step) => {
                self.items.push(CertItem::Step(step))?;
                Ok(true)
            }
            WalkLine::Repeat(count) => self.open(alloc, count),
            WalkLine::End => self.close(),
        }
    }

    fn open(&mut self, alloc: Global, count: u32) -> Result<bool, AllocError>
        ensures { IfOk result (TakesWalk self.old self.new (WalkLine.Repeat count)) }
    {
        // Repeats are nested at most as deep as instances.
        if self.opened.len() >= MOST_INSTANCES {
            return Ok(false);
        }
        let before = std::mem::replace(&mut self.items, Vec::new(alloc));
        self.opened.push(OpenRepeat { before, count })?;
        Ok(true)
    }

    fn close(&mut self) -> Result<bool, AllocError>
        ensures { IfOk result (TakesWalk self.old self.new WalkLine.End) }
    {
        if self.items.is_empty() {
            return Ok(false);
        }
        let Some(last) = self.opened.pop() else {
            return Ok(false);
        };
        let body = std::mem::replace(&mut self.items, last.before);
        self.items.push(CertItem::Repeat(last.count, body))?;
        Ok(true)
    }

    /// Whether no repeat is open.
    pub(crate) fn is_closed(&self) -> bool
        ensures { result ≡ ((nest_of self.now).opened == 0) }
    {
        self.opened.is_empty()
    }

    /// The walk, where no repeat is open.
    pub(crate) fn finish(self) -> CertWalk
        requires { (nest_of self).opened ≡ 0 }
        ensures { cert_walk_lines result ≡ walk_so_far self }
    {
        CertWalk::of(self.items)
    }
}
