ghost use Rattle.std.specs.Prelude.{◌≡◌, ◌+◌, ◌*◌, ◌<◌};
ghost use Rattle.control_flow.specs.Edges.{arrival_ticks, do_ticks, fetch_ticks, jump_ticks};
ghost use Rattle.control_flow.specs.Edges.{passing_ticks, stated_work, work_ticks};
ghost use Rattle.control_flow.specs.Kinds.{IsWork};
ghost use Rattle.control_flow.specs.Places.{IsInSpace};

use crate::actions::{Kind, Work};
use crate::places::Place;
use crate::sites::Site;
use bus_ticks::{
    Class, Profile, ahead_of, worst_fetch_n, worst_fetch_s, worst_leave, worst_transfer,
};
use statement::Statement;

/// The cost of a word that is skipped: the fetch of the word after the next.
pub(crate) fn passing_ticks(profile: &Profile, address: u32) -> u32
    ensures ticks { result ≡ passing_ticks profile.now address }
    ensures small { result < 256 }
{
    worst_fetch_s(profile, ahead_of(address, 8))
}

// The fetch of the word after the next.
fn fetch_ticks(profile: &Profile, address: u32, work: Work) -> u32
    ensures ticks { result ≡ fetch_ticks profile.now address work }
    ensures small { result < 256 }
{
    match work {
        Work::Internal(_) | Work::Load(_) => passing_ticks(profile, address),
        Work::Store(_) => worst_fetch_n(profile, ahead_of(address, 8)),
    }
}

/// The cost of a word besides its fetches, in ticks: below 4400.
pub fn work_ticks(profile: &Profile, class: Class, work: Work) -> u32
    requires { IsWork work }
    ensures ticks { result ≡ work_ticks profile.now class work }
    ensures small { result < 4400 }
{
    match work {
        Work::Internal(cycles) => cycles * profile.internal,
        Work::Load(words) => worst_transfer(profile, class, words, false) + profile.internal,
        Work::Store(words) => worst_transfer(profile, class, words, true),
    }
}

// The cost of the fetches after a jump: of the word at its target, and of the next.
fn jump_ticks(profile: &Profile, leave: Class, to: &Place) -> u32
    requires { IsInSpace to.now }
    ensures ticks { result ≡ jump_ticks profile.now leave to.now }
    ensures small { result < 512 }
{
    match to {
        Place::At(_, address) => {
            worst_fetch_n(profile, *address) + worst_fetch_s(profile, ahead_of(*address, 4))
        }
        Place::Exit => worst_leave(profile, leave),
    }
}

fn arrival_ticks(profile: &Profile, leave: Class, kind: Kind, to: &Place) -> u32
    requires { IsInSpace to.now }
    ensures ticks { result ≡ arrival_ticks profile.now leave kind to.now }
    ensures small { result < 512 }
{
    match kind {
        Kind::Branch(_) | Kind::Call(_) | Kind::Writer => jump_ticks(profile, leave, to),
        Kind::Plain | Kind::Trap | Kind::Unallocated => 0,
    }
}

// What a word does by what is stated of it.
fn stated_work(statement: &Statement, address: u32, work: Work) -> Work
    requires { IsWork work }
    ensures value { result ≡ stated_work statement.now address work }
    ensures fits { IsWork result }
{
    match work {
        // Only a multiply takes more than one, and nothing less than one can be stated.
        Work::Internal(cycles) if cycles > 1 => {
            Work::Internal(cycles.min(statement.cycles_at(address)))
        }
        Work::Internal(_) | Work::Load(_) | Work::Store(_) => work,
    }
}

/// The cost of a word that is done and goes on to that place.
pub(crate) fn do_ticks(site: &Site, to: &Place) -> u32
    requires work { IsWork site.now.action.work }
    requires to { IsInSpace to.now }
    ensures { result ≡ do_ticks site.now.inputs.statement.now site.now.inputs.profile.now
        site.now.address site.now.action to.now }
{
    let (statement, profile) = (site.inputs.statement, site.inputs.profile);
    let (action, address) = (site.action, site.address);
    let class = statement.class_at(address, action.base);
    fetch_ticks(profile, address, action.work)
        + work_ticks(profile, class, stated_work(statement, address, action.work))
        + arrival_ticks(profile, statement.leave(), action.kind, to)
}
