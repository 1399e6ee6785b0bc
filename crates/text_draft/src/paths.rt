use crate::reach::{Reached, pairs_at};
use std::alloc::{AllocError, Global};
use std::collections::{BTreeMap, BTreeSet};

/// The routine in which a search reached each address, and the steps that lead back to an address on the
/// path by which the search came: each by where it ends and where it comes from.
#[derive(Drop)]
pub(crate) struct Descent {
    pub routines: BTreeMap<u32, u32>,
    pub backs: Vec<(u32, u32)>,
}

// A search that goes down as long as it can.
#[derive(Drop)]
struct DescentSearch<'a> {
    leaving: &'a [(u32, u32)],
    descent: Descent,
    // The addresses that were reached and are no longer on the path.
    left: BTreeSet<u32>,
    // The addresses on the path, each with its steps that are not yet taken.
    path: Vec<(u32, &'a [(u32, u32)])>,
}

impl<'a> DescentSearch<'a> {
    // Takes a step: goes down to an address that was not reached before.
    fn step(&mut self, from: u32, to: u32, routine: u32) -> Result<(), AllocError> {
        if !self.descent.routines.contains_key(&to) {
            self.descent.routines.insert(to, routine)?;
            self.path.push((to, pairs_at(self.leaving, to)))?;
        } else if !self.left.contains(&to) {
            self.descent.backs.push((to, from))?;
        }
        Ok(())
    }

    // Goes on from the end of the path, or back up.
    fn advance(
        &mut self,
        at: u32,
        steps: &'a [(u32, u32)],
        routine: u32,
    ) -> Result<(), AllocError> {
        match steps {
            [] => {
                self.left.insert(at)?;
                Ok(())
            }
            [(_, to), rest @ ..] => {
                self.path.push((at, rest))?;
                self.step(at, *to, routine)
            }
        }
    }

    // Searches a routine that was not reached before. Each turn takes a step or goes back up, of which there
    // are far fewer than turns. No address is on the path before, so that the first step is none back.
    fn search(&mut self, routine: u32) -> Result<(), AllocError> {
        self.step(routine, routine, routine)?;
        for _ in 0..u32::MAX {
            let Some((at, steps)) = self.path.pop() else {
                return Ok(());
            };
            self.advance(at, steps, routine)?;
        }
        Ok(())
    }

    // Searches the handler first and then the routines.
    fn search_all(&mut self, entry: u32, routines: &[u32]) -> Result<(), AllocError> {
        self.search(entry)?;
        for routine in routines {
            self.search(*routine)?;
        }
        self.descent.backs.sort()
    }
}

/// Searches all that is reached, the handler first and then the routines that are called.
pub(crate) fn descend(alloc: Global, reach: &Reached, entry: u32) -> Result<Descent, AllocError> {
    let mut search = DescentSearch {
        leaving: &reach.leaving,
        descent: Descent {
            routines: BTreeMap::new(alloc),
            backs: Vec::new(alloc),
        },
        left: BTreeSet::new(alloc),
        path: Vec::new(alloc),
    };
    search.search_all(entry, &reach.roots)?;
    Ok(search.descent)
}
