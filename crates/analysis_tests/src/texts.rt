use bus_ticks::Profile;
use cert_check::{longest_gets_yes, yes_means_greatest};
use certificate::*;
use flow_graph::{Calls, Edge, Label, Place};
use longest_walk::{FoldedWalk, Item, ItemList, Longest, Potentials, WalkFault};
use samples::{countdown, lone_return, nested_countdown};
use std::alloc::{AllocError, Global};
use std::rc::Rc;
use std::test::*;

// By another profile, with a list of calls, the greatest bound, and no walk.
const OTHER_PROFILE: &[u8] = b"arcwcet certificate 2
profile 3 1 2 5 4 3 2 8 6 5 10 2 2 1 8
bound 9223372036854775807
close
place 8004/8008 3FFFFFF 7
stop
";

const OTHER_NUMBERS: [u32; 15] = [3, 1, 2, 5, 4, 3, 2, 8, 6, 5, 10, 2, 2, 1, 8];

// A step's address, 1 for `do`, destination (1 for Exit) and cost, or a repeat's count and how many items it
// repeats.
fn put_item(numbers: &mut Vec<u64>, item: &CertItem) -> Result<(), AllocError> {
    match item {
        CertItem::Step(step) => {
            let to = match step.to {
                To::At(address) => u64::from(address),
                To::Exit => 1,
            };
            let done = u64::from(step.label == Label::Do);
            numbers.extend_from_slice(&[u64::from(step.address), done, to, step.cost])
        }
        CertItem::Repeat(count, body) => {
            numbers.extend_from_slice(&[u64::from(*count), body.len() as u64])
        }
    }
}

fn put_place(numbers: &mut Vec<u64>, place: &PlaceRow) -> Result<(), AllocError> {
    for call in place.list.items() {
        numbers.push(u64::from(*call))?;
    }
    numbers.extend_from_slice(&[u64::from(place.address), place.distance])
}

// A certificate as numbers: its bound, the items of its walk, and its rows.
fn put_numbers(numbers: &mut Vec<u64>, cert: &Cert) -> Result<(), AllocError> {
    numbers.push(cert.bound)?;
    for item in cert.walk.items() {
        put_item(numbers, item)?;
    }
    for place in cert.places.items() {
        put_place(numbers, place)?;
    }
    for row in cert.instances.items() {
        numbers.extend_from_slice(&[u64::from(row.header), row.arrival, row.round])?;
    }
    Ok(())
}

fn has_numbers(alloc: Global, cert: &Cert, wanted: &[u64]) -> Result<bool, AllocError> {
    let mut numbers = Vec::new(alloc);
    put_numbers(&mut numbers, cert)?;
    Ok(numbers.as_slice() == wanted)
}

const FIRST_NUMBERS: [u32; 15] = [2, 1, 2, 4, 3, 2, 2, 8, 6, 5, 10, 2, 2, 1, 6];

// A text, the numbers of its profile, and those of the certificate.
static READ: [(&[u8], [u32; 15], &[u64]); 3] = [
    (
        lone_return::CERTIFICATE,
        FIRST_NUMBERS,
        &[9, 0x1C, 1, 1, 9, 0x1C, 0],
    ),
    (
        nested_countdown::CERTIFICATE,
        FIRST_NUMBERS,
        &[
            50, 0x8000, 1, 0x8004, 1, // the way in
            1, 6, 0x8004, 1, 0x8008, 1, 2, 2, 0x8008, 1, 0x800C, 2, 0x800C, 0, 0x8010, 1, // the rounds
            0x8010, 1, 0x8014, 1, 0x8014, 0, 0x8018, 1, 0x8018, 1, 1, 10, // the way out
            0x8000, 0, 0x8004, 0, 0x8008, 0, 0x800C, 2, 0x8010, 16, 0x8014, 17, 0x8018, 40, // places
            0x8004, 1, 21, 0x8008, 1, 6, // instances
        ],
    ),
    (
        OTHER_PROFILE,
        OTHER_NUMBERS,
        &[9_223_372_036_854_775_807, 0x8004, 0x8008, 0x3FF_FFFF, 7],
    ),
];

#[test]
fn reads_certificates(rt: HostRuntime) -> Result<(), Fail> {
    assert!(rt; Profile::one().numbers() == FIRST_NUMBERS);
    for (text, profile, wanted) in &READ {
        let cert = read_cert(rt.alloc(), text)?;
        let numbers = cert.profile.numbers();
        let has_numbers = has_numbers(rt.alloc(), &cert, wanted);
        drop(cert);
        assert!(rt; (numbers, has_numbers) == (*profile, Ok(true)));
    }
    Ok(())
}

fn at(address: u32) -> Place {
    Place::At(Calls::new(), address)
}

fn step(from: u32, label: Label, to: Place, cost: u32) -> Item {
    Item::Step(Edge {
        from: at(from),
        label,
        to,
        cost,
    })
}

fn place(address: u32, distance: u64) -> PlaceRow {
    PlaceRow {
        list: Calls::new(),
        address,
        distance,
    }
}

fn instance(header: u32) -> InstanceRow {
    InstanceRow {
        list: Calls::new(),
        header,
        arrival: 1,
        round: 6,
    }
}

fn round(alloc: Global) -> Result<Vec<Item>, AllocError> {
    let mut body = Vec::new(alloc);
    body.push(step(0x8004, Label::Do, at(0x8008), 1))?;
    body.push(step(0x8008, Label::Do, at(0x8004), 5))?;
    Ok(body)
}

fn push_rounds(alloc: Global, walk: &mut FoldedWalk) -> Result<(), Fail> {
    let body = Rc::new(alloc, round(alloc)?)?;
    Ok(walk.push(alloc, Item::Repeat(2, body))?)
}

fn push_walk(alloc: Global, walk: &mut FoldedWalk) -> Result<(), Fail> {
    walk.push(alloc, step(0x8000, Label::Do, at(0x8004), 1))?;
    push_rounds(alloc, walk)?;
    walk.push(alloc, step(0x8004, Label::Do, at(0x8008), 1))?;
    walk.push(alloc, step(0x8008, Label::Skip, at(0x800C), 2))?;
    Ok(walk.push(alloc, step(0x800C, Label::Do, Place::Exit, 9))?)
}

fn push_rows(alloc: Global, rows: &mut Potentials) -> Result<(), WalkFault> {
    for (address, distance) in [(0x8000, 0), (0x8004, 0), (0x8008, 1), (0x800C, 16)] {
        rows.places.push(alloc, place(address, distance))?;
    }
    rows.instances.push(alloc, instance(0x8004))
}

fn push_countdown(alloc: Global, longest: &mut Longest) -> Result<(), Fail> {
    push_walk(alloc, &mut longest.walk)?;
    Ok(push_rows(alloc, &mut longest.potentials)?)
}

// The greatest walk of the countdown, and its rows.
fn countdown_walk(alloc: Global) -> Result<Longest, Fail> {
    let mut longest = Longest {
        bound: 25,
        walk: FoldedWalk::new(alloc),
        potentials: Potentials {
            places: ItemList::new(alloc),
            instances: ItemList::new(alloc),
        },
        profile: Profile::one(),
    };
    match push_countdown(alloc, &mut longest) {
        Ok(()) => Ok(longest),
        Err(fault) => {
            drop(longest);
            Err(fault)
        }
    }
}

fn is_written(alloc: Global, longest: &Longest) -> Result<bool, CertFault> {
    Ok(write_cert(alloc, longest)?.as_slice() == countdown::CERTIFICATE)
}

fn is_written_by_its_profile(alloc: Global, longest: &Longest) -> Result<bool, CertFault> {
    let head = b"arcwcet certificate 2\nprofile 3 1 2 5 4 3 2 8 6 5 10 2 2 1 8\nbound 25\n";
    let text = write_cert(alloc, longest)?;
    let back = read_cert(alloc, &text)?;
    let is_back = back.profile == longest.profile;
    drop(back);
    Ok(text.starts_with(head) && is_back)
}

#[test]
fn writes_countdown(rt: HostRuntime) -> Result<(), Fail> {
    let other = Profile::new(OTHER_NUMBERS)?;
    let mut longest = countdown_walk(rt.alloc())?;
    let is_first = is_written(rt.alloc(), &longest);
    longest.profile = other;
    let is_other = is_written_by_its_profile(rt.alloc(), &longest);
    drop(longest);
    assert!(rt; [is_first, is_other] == [Ok(true); 2]);
    Ok(())
}

fn keeps_an_item(alloc: Global) -> Result<bool, WalkFault> {
    let mut walk = FoldedWalk::new(alloc);
    walk.push(alloc, step(0x8000, Label::Do, Place::Exit, 9))?;
    Ok(matches!(walk.items(), [Item::Step(edge)] if edge.cost == 9))
}

fn keeps_a_place(alloc: Global) -> Result<bool, WalkFault> {
    let mut places = ItemList::new(alloc);
    places.push(alloc, place(0x8000, 4))?;
    Ok(matches!(places.items(), [place] if place.distance == 4))
}

fn keeps_an_instance(alloc: Global) -> Result<bool, WalkFault> {
    let mut instances = ItemList::new(alloc);
    instances.push(alloc, instance(0x8000))?;
    Ok(matches!(instances.items(), [instance] if instance.round == 6))
}

// How many items a certificate's walk has before one is put, and after.
fn lengths_of_a_walk(alloc: Global) -> Result<[usize; 2], WalkFault> {
    let mut walk = CertWalk::new(alloc);
    let empty = walk.items().len();
    walk.push(alloc, CertItem::Repeat(3, Vec::new(alloc)))?;
    Ok([empty, walk.items().len()])
}

#[test]
fn items_and_rows_one_by_one(rt: HostRuntime) -> Result<(), Fail> {
    let alloc = rt.alloc();
    assert!(rt; keeps_an_item(alloc)? && keeps_a_place(alloc)? && keeps_an_instance(alloc)?);
    assert!(rt; lengths_of_a_walk(alloc)? == [0, 1]);
    Ok(())
}

#[test]
fn calls_the_laws() {
    one_text_each();
    longest_can_be_spelled();
    yes_means_greatest();
    longest_gets_yes();
}
