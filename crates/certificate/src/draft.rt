ghost use Rattle.std.specs.Prelude.{◌≡◌, ◌↔◌, [], IsTrue, IfOk, IfErr};
ghost use Rattle.certificate.specs.Drafts.{IsDraft, Takes, lines_of, reached_of};
ghost use Rattle.certificate.specs.Follows.{comes_after, start};
ghost use Rattle.certificate.specs.Lines.{cert_lines, said_by};
ghost use Rattle.certificate.specs.Words.{LineFits};

use crate::cert::Cert;
use crate::fault::CertFault;
use crate::line::{Line, Version, WalkLine};
use crate::open_walk::OpenWalk;
use bus_ticks::Profile;
use control_flow::Place;
use longest_walk::{InstanceRow, ItemList, PlaceRow};
use std::alloc::Global;

/// Which lines may come next.
#[derive(Clone, Copy)]
pub enum Stage {
    Title,
    Numbers,
    Bound,
    Walk,
    /// Rows of places, after the one of this place.
    Places(Option<Place>),
    /// Rows of instances, after the one of this header.
    Instances(Option<Place>),
    Done,
}

/// A certificate of which some lines are read.
#[derive(Drop)]
pub struct Draft {
    pub stage: Stage,
    pub profile: Profile,
    pub bound: u64,
    pub walk: OpenWalk,
    pub places: ItemList<PlaceRow>,
    pub instances: ItemList<InstanceRow>,
}

fn comes_after(last: Option<Place>, place: &Place) -> bool
    ensures { result ≡ comes_after last place.now }
{
    match last {
        Some(last) => last < *place,
        None => true,
    }
}

impl Draft {
    /// The certificate of no line. It takes no memory.
    pub(crate) fn new(alloc: Global) -> Draft
        ensures draft { IsDraft result }
        ensures lines { lines_of result ≡ [] }
        ensures reached { reached_of result ≡ start }
    {
        Draft {
            stage: Stage::Title,
            profile: Profile::one(),
            bound: 0,
            walk: OpenWalk::new(alloc),
            places: ItemList::new(alloc),
            instances: ItemList::new(alloc),
        }
    }

    /// Takes the next line, and answers whether it may follow.
    pub(crate) fn take(&mut self, alloc: Global, line: Line) -> Result<bool, CertFault>
        requires draft { IsDraft self.old }
        requires fits { LineFits line }
        ensures taken { IfOk result (Takes self.old self.new line) }
        ensures memory { IfErr result (λ fault. fault ≡ CertFault.Memory) }
    {
        match line {
            Line::Title(version) => Ok(self.take_title(version)),
            Line::Profile(numbers) => Ok(self.take_profile(numbers)),
            Line::Bound(bound) => Ok(self.take_bound(bound)),
            Line::Walk(line) => self.take_walk(alloc, line),
            Line::Close => Ok(self.take_close()),
            Line::Place(row) => self.take_place(alloc, row),
            Line::Instance(row) => self.take_instance(alloc, row),
            Line::Stop => Ok(self.take_stop()),
        }
    }

    fn take_title(&mut self, version: Version) -> bool
        requires draft { IsDraft self.old }
        ensures { Takes self.old self.new (Line.Title version) result }
    {
        match (self.stage, version) {
            (Stage::Title, Version::One) => {
                self.profile = Profile::one();
                self.stage = Stage::Bound;
                true
            }
            (Stage::Title, Version::Two) => {
                self.stage = Stage::Numbers;
                true
            }
            _ => false,
        }
    }

    fn take_profile(&mut self, numbers: [u32; 15]) -> bool
        requires draft { IsDraft self.old }
        requires fits { LineFits (Line.Profile numbers) }
        ensures { Takes self.old self.new (Line.Profile numbers) result }
    {
        let Stage::Numbers = self.stage else {
            return false;
        };
        match Profile::new(numbers) {
            Ok(profile) => {
                self.profile = profile;
                self.stage = Stage::Bound;
                true
            }
            Err(_) => false,
        }
    }

    fn take_bound(&mut self, bound: u64) -> bool
        requires draft { IsDraft self.old }
        ensures { Takes self.old self.new (Line.Bound bound) result }
    {
        let Stage::Bound = self.stage else {
            return false;
        };
        self.bound = bound;
        self.stage = Stage::Walk;
        true
    }

    /// Takes the next line of a walk, and answers whether it may follow.
    #[inline(always)]
    pub(crate) fn take_walk(&mut self, alloc: Global, line: WalkLine) -> Result<bool, CertFault>
        requires draft { IsDraft self.old }
        ensures taken { IfOk result (Takes self.old self.new (Line.Walk line)) }
        ensures memory { IfErr result (λ fault. fault ≡ CertFault.Memory) }
    {
        let Stage::Walk = self.stage else {
            return Ok(false);
        };
        match self.walk.take(alloc, line) {
            Ok(taken) => Ok(taken),
            Err(_) => Err(CertFault::Memory),
        }
    }

    fn take_close(&mut self) -> bool
        requires draft { IsDraft self.old }
        ensures { Takes self.old self.new Line.Close result }
    {
        let Stage::Walk = self.stage else {
            return false;
        };
        if !self.walk.is_closed() {
            return false;
        }
        self.stage = Stage::Places(None);
        true
    }

    fn take_place(&mut self, alloc: Global, row: PlaceRow) -> Result<bool, CertFault>
        requires draft { IsDraft self.old }
        ensures taken { IfOk result (Takes self.old self.new (Line.Place row)) }
        ensures memory { IfErr result (λ fault. fault ≡ CertFault.Memory) }
    {
        let Stage::Places(last) = self.stage else {
            return Ok(false);
        };
        let place = Place::At(row.list, row.address);
        if !comes_after(last, &place) {
            return Ok(false);
        }
        self.stage = Stage::Places(Some(place));
        match self.places.push(alloc, row) {
            Ok(()) => Ok(true),
            Err(_) => Err(CertFault::Memory),
        }
    }

    fn take_instance(&mut self, alloc: Global, row: InstanceRow) -> Result<bool, CertFault>
        requires draft { IsDraft self.old }
        ensures taken { IfOk result (Takes self.old self.new (Line.Instance row)) }
        ensures memory { IfErr result (λ fault. fault ≡ CertFault.Memory) }
    {
        let last = match self.stage {
            Stage::Places(_) => None,
            Stage::Instances(last) => last,
            _ => return Ok(false),
        };
        let header = Place::At(row.list, row.header);
        if !comes_after(last, &header) {
            return Ok(false);
        }
        self.stage = Stage::Instances(Some(header));
        match self.instances.push(alloc, row) {
            Ok(()) => Ok(true),
            Err(_) => Err(CertFault::Memory),
        }
    }

    fn take_stop(&mut self) -> bool
        requires draft { IsDraft self.old }
        ensures { Takes self.old self.new Line.Stop result }
    {
        match self.stage {
            Stage::Places(_) | Stage::Instances(_) => {
                self.stage = Stage::Done;
                true
            }
            _ => false,
        }
    }

    /// Whether the last line is read.
    pub(crate) fn is_done(&self) -> bool
        ensures { IsTrue result ↔ (self.now.stage ≡ Stage.Done) }
    {
        matches!(self.stage, Stage::Done)
    }

    /// The certificate, where the last line is read.
    pub(crate) fn finish(self) -> Cert
        requires draft { IsDraft self }
        requires done { self.stage ≡ Stage.Done }
        ensures { cert_lines (said_by result) ≡ lines_of self }
    {
        Cert {
            profile: self.profile,
            bound: self.bound,
            walk: self.walk.finish(),
            places: self.places,
            instances: self.instances,
        }
    }
}
