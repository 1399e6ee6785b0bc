use arm2_decode::Register;
use bus_ticks::Class;
use loader::{LabelFault, Labels};
use statement::{
    ApartStretch, ApartWords, BaseRule, Loop, Statement, StatementFault, Taken, TargetKind,
    read_statement,
};
use std::alloc::Global;
use std::test::Fail;

fn labels(alloc: Global) -> Result<Labels, LabelFault> {
    let mut labels = Labels::new(alloc);
    labels.put(alloc, b"start", 0x8000)?;
    Ok(labels)
}

// A statement on a source with the label `start` at 8000.
fn read(alloc: Global, text: &[u8]) -> Result<Statement, Fail> {
    let labels = labels(alloc)?;
    let statement = read_statement(alloc, text, &labels);
    drop(labels);
    Ok(statement?)
}

// The entry and what a return leaves to, and how many loops there are.
fn outline(statement: &Statement) -> (u32, Class, usize) {
    (
        statement.entry(),
        statement.leave(),
        statement.loops().list().len(),
    )
}

// Whether a call to these addresses is stated there.
fn is_call(statement: &Statement, at: u32, to: [u32; 2]) -> bool {
    match statement.target_at(at) {
        Some(target) => {
            matches!(target.kind(), TargetKind::Call) && target.to() == to.as_slice()
        }
        None => false,
    }
}

#[test]
fn reads_entries(rt: HostRuntime) -> Result<(), Fail> {
    for (text, entry, leave) in [
        (
            b"entry = 0x8000\nleave = \"ram\"\n".as_slice(),
            0x8000,
            Class::Ram,
        ),
        (b"entry = 67108860", 0x3FF_FFFC, Class::Any),
    ] {
        let statement = read(rt.alloc(), text)?;
        let outline = outline(&statement);
        drop(statement);
        assert!(rt; outline == (entry, leave, 0));
    }
    Ok(())
}

const WHOLE: &[u8] = b"entry = \"start\"\nleave = \"io\"\n\
    [[loop]]\nheader = 0x8004\nfirst = \"start\"\nlast = 0x8008\nbound = 1048576\n\
    [[target]]\nat = 0x8010\nkind = \"call\"\nto = [0x8020, \"start\"]\n\
    [[target]]\nat = 0x8014\nkind = \"leave\"\n\
    [[access]]\nat = \"start\"\nclass = \"rom\"\n";

#[test]
fn reads_statements(rt: HostRuntime) -> Result<(), Fail> {
    let statement = read(rt.alloc(), WHOLE)?;
    let stated = Loop {
        header: 0x8004,
        first: 0x8000,
        last: 0x8008,
        bound: 1_048_576,
    };
    assert!(rt; outline(&statement) == (0x8000, Class::Io, 1));
    assert!(rt; statement.loops().list() == [stated].as_slice());
    assert!(rt; is_call(&statement, 0x8010, [0x8020, 0x8000]));
    assert!(rt; statement.target_at(0x8000).is_none());
    let base = Some(Register::R1);
    let classes = [
        statement.class_at(0x8000, base),
        statement.class_at(0x8010, base),
    ];
    assert!(rt; classes == [Class::Rom, Class::Any]);
    drop(statement);
    Ok(())
}

const APART: &[u8] = b"entry = \"start\"\n\
    apart = [[0x8010, \"start+20\"], [\"start+4\", 0x8004]]\n\
    [[loop]]\nheader = \"start\"\nfirst = \"start\"\nlast = 0x8018\nbound = 3\n";

// Where some words lie for loops.
fn places(apart: &ApartWords) -> [u64; 6] {
    [
        apart.lies_at(0x8000),
        apart.lies_at(0x8004),
        apart.lies_at(0x8008),
        apart.lies_at(0x8010),
        apart.lies_at(0x8014),
        apart.lies_at(0x8018),
    ]
}

#[test]
fn reads_words_apart(rt: HostRuntime) -> Result<(), Fail> {
    let statement = read(rt.alloc(), APART)?;
    let apart = statement.loops().apart();
    let wanted = [
        ApartStretch {
            first: 0x8010,
            last: 0x8014,
        },
        ApartStretch {
            first: 0x8004,
            last: 0x8004,
        },
    ];
    assert!(rt; apart.stretches() == wanted.as_slice());
    assert!(rt; places(apart) == [0x8000, 0x400_8004, 0x8008, 0x400_8010, 0x400_8014, 0x8018]);
    drop(statement);
    Ok(())
}

const PRICED: &[u8] = b"entry = \"start\"\n\
    [[access]]\nat = \"start\"\nclass = \"rom\"\n\
    [[base]]\nregister = \"PC\"\nclass = \"slow\"\n\
    [[base]]\nregister = \"r12\"\nclass = \"ram\"\nfirst = \"start\"\nlast = 0x8010\n\
    [[multiply]]\nat = 0x8018\ncycles = 4\n\
    [[branch]]\nat = 0x8008\ntaken = \"never\"\n";

// The classes of some words that load by R12, by PC, and by no register.
fn classes(statement: &Statement) -> [Class; 5] {
    let (own, pointer) = (Some(Register::R12), Some(Register::R15));
    [
        statement.class_at(0x8000, own),
        statement.class_at(0x8010, own),
        statement.class_at(0x8014, own),
        statement.class_at(0x8014, pointer),
        statement.class_at(0x8010, None),
    ]
}

#[test]
fn reads_rules_cycles_and_ways(rt: HostRuntime) -> Result<(), Fail> {
    let statement = read(rt.alloc(), PRICED)?;
    let wanted = [Class::Rom, Class::Ram, Class::Any, Class::Slow, Class::Any];
    assert!(rt; classes(&statement) == wanted);
    let rule = BaseRule {
        register: Register::R15,
        first: 0,
        last: 0x3FF_FFFC,
        class: Class::Slow,
    };
    assert!(rt; statement.rules().first() == Some(&rule));
    let cycles = [statement.cycles_at(0x8018), statement.cycles_at(0x8000)];
    assert!(rt; cycles == [4, 16]);
    let ways = [statement.taken_at(0x8008), statement.taken_at(0x8000)];
    assert!(rt; ways == [Some(Taken::Never), None]);
    let counts = (statement.multiplies().len(), statement.branches().len());
    assert!(rt; counts == (1, 1));
    drop(statement);
    Ok(())
}

// What is read of an entry, by its text between quotes.
fn entry_of(alloc: Global, entry: &str) -> Result<Result<u32, StatementFault>, Fail> {
    let text = format!(in alloc; "entry = \"{entry}\"\n")?;
    let labels = labels(alloc)?;
    let statement = read_statement(alloc, text.as_bytes(), &labels);
    drop(labels);
    drop(text);
    Ok(match statement {
        Ok(statement) => Ok(statement.entry()),
        Err(fault) => Err(fault),
    })
}

#[test]
fn adds_and_takes_away_bytes(rt: HostRuntime) -> Result<(), Fail> {
    for (entry, address) in [
        ("start", 0x8000),
        ("start+8", 0x8008),
        ("start-4", 0x7FFC),
        ("start+0012", 0x800C),
        ("start-0", 0x8000),
        ("start-32768", 0),
        ("start+67076092", 0x3FF_FFFC),
    ] {
        let read = entry_of(rt.alloc(), entry)?;
        assert!(rt; read == Ok(address));
    }
    Ok(())
}

#[test]
fn refuses_bytes_behind_labels(rt: HostRuntime) -> Result<(), Fail> {
    for (entry, fault) in [
        ("stop+8", StatementFault::UnknownLabel),
        ("+8", StatementFault::UnknownLabel),
        ("start+", StatementFault::UnknownLabel),
        ("start+8x", StatementFault::UnknownLabel),
        ("start++8", StatementFault::UnknownLabel),
        ("start+2", StatementFault::OutOfRange),
        ("start-32772", StatementFault::OutOfRange),
        ("start+67076096", StatementFault::OutOfRange),
        ("start-4294967296", StatementFault::OutOfRange),
        (
            "start+400000000000000000000000000000",
            StatementFault::OutOfRange,
        ),
    ] {
        let read = entry_of(rt.alloc(), entry)?;
        assert!(rt; read == Err(fault));
    }
    Ok(())
}
