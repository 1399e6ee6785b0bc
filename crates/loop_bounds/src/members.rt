ghost use Rattle.std.specs.Prelude.{◌≡◌, ◌++◌, [], ◌∷◌, List};
ghost use Rattle.statement.specs.declared.apart.ApartStretch.{ApartStretch};
ghost use Rattle.loop_bounds.specs.Extents.{found_instance};
ghost use Rattle.loop_bounds.specs.Instance.{holds, is_header, is_member, is_back_edge_of};

use crate::loop_instances::LoopInstance;
use control_flow::{Edge, Place};
use statement::{ApartWords, Loop};

// Whether a key, calls and then an address, begins with the list and goes on with a word of the loop.
fn holds(apart: &ApartWords, stated: &Loop, list: &[u32], calls: &[u32], address: u32) -> bool
    ensures { result
        ≡ holds apart.now stated.now.first stated.now.last list.now (calls.now ++ address ∷ []) }
{
    match list {
        [] => match calls {
            [] => apart.lies_within(stated.first, address, stated.last),
            [call, ..] => apart.lies_within(stated.first, *call, stated.last),
        },
        [own, list @ ..] => match calls {
            [] => false,
            [call, calls @ ..] => *call == *own && holds(apart, stated, list, calls, address),
        },
    }
}

impl LoopInstance {
    /// Whether the place is a member of the instance, where those words are apart from its loop.
    pub fn is_member(&self, apart: &ApartWords, place: &Place) -> bool
        ensures { result ≡ is_member (found_instance apart.now self.now) place.now }
    {
        match place {
            Place::At(calls, address) => {
                let list = self.list.items();
                holds(apart, &self.stated, list, calls.items(), *address)
            }
            Place::Exit => false,
        }
    }

    /// Whether the place is the instance's header.
    pub fn is_header(&self, place: &Place) -> bool
        ensures { (apart : List ApartStretch) → result ≡ is_header (found_instance apart self.now) place.now }
    {
        match place {
            Place::At(calls, address) => { *calls == self.list && *address == self.stated.header }
            Place::Exit => false,
        }
    }
}

/// Whether the edge is a back edge of the loop's instance for the calls of the place to which it leads.
pub fn is_back_edge_of(apart: &ApartWords, stated: &Loop, edge: &Edge) -> bool
    ensures { result ≡ is_back_edge_of apart.now stated.now edge.now }
{
    match edge.to {
        Place::At(list, _) => {
            let found = LoopInstance {
                list,
                stated: *stated,
            };
            found.is_member(apart, &edge.from) && found.is_header(&edge.to)
        }
        Place::Exit => false,
    }
}
