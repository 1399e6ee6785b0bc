//! Which stated loops no run leaves, of all their instances.

ghost use Rattle.std.specs.Prelude.{◌≡◌, ◌<◌, ◌+◌, ◌==◌, if◌then◌else◌, ℕ, IfOk, OnOk, Some, false, length};
ghost use Rattle.std.specs.Prelude.{option_map, unwrap_or};
ghost use Rattle.std.specs.BTreeMap.{get};
ghost use Rattle.std.specs.Ordering.{nat_cmp};
ghost use Rattle.known_places.specs.Endless.{endless_at};
ghost use Rattle.justify_reports.specs.Endless.{AreFoundEndless, with_instance};

use loop_bounds::Handler;
use std::alloc::{AllocError, Global};
use std::collections::BTreeMap;

fn endless_at(endless: &[bool], number: usize) -> bool
    ensures { result ≡ endless_at endless.now number }
{
    match endless.get(number) {
        Some(said) => *said,
        None => false,
    }
}

// With one instance more.
fn with_instance(old: Option<&bool>, said: bool) -> bool
    ensures { result ≡ with_instance (option_map (λ o. o.now) old.entry) said }
{
    match old {
        Some(old) => *old && said,
        None => said,
    }
}

fn put_header(found: &mut BTreeMap<u32, bool>, at: u32, said: bool) -> Result<(), AllocError>
    ensures { OnOk result ((a : ℕ) → get nat_cmp found.new a
        ≡ (if at == a then Some (with_instance (get nat_cmp found.old at) said)
        else get nat_cmp found.old a)) }
{
    let all = with_instance(found.get(&at), said);
    found.insert(at, all)?;
    Ok(())
}

// Adds what is said of the instance of a number.
fn put_instance(
    found: &mut BTreeMap<u32, bool>,
    handler: &Handler<'_>,
    endless: &[bool],
    number: usize,
) -> Result<(), AllocError>
    requires { number < length handler.now.tree.instances }
    ensures { AreFoundEndless handler.now.tree endless.now number (get nat_cmp found.old)
        → OnOk result (AreFoundEndless handler.now.tree endless.now (number + 1) (get nat_cmp found.new)) }
{
    let instance = handler.tree.instances()[number];
    let said = endless_at(endless, number);
    put_header(found, instance.stated.header, said)
}

/// Whether no run leaves any instance of the loop with its header at each address. `AllocError`: an
/// allocation failed.
pub(crate) fn endless_headers(
    alloc: Global,
    handler: &Handler<'_>,
    endless: &[bool],
) -> Result<BTreeMap<u32, bool>, AllocError>
    ensures { IfOk result (λ found. AreFoundEndless handler.now.tree endless.now
        (length handler.now.tree.instances) (get nat_cmp found)) }
{
    let mut found = BTreeMap::new(alloc);
    for number in 0..handler.tree.instances().len() {
        put_instance(&mut found, handler, endless, number)?;
    }
    Ok(found)
}

/// Whether that was found of the loop with its header at an address, which may have no instance.
pub(crate) fn is_found(found: &BTreeMap<u32, bool>, at: u32) -> bool
    ensures { result ≡ unwrap_or (get nat_cmp found.now at) false }
{
    match found.get(&at) {
        Some(all) => *all,
        None => false,
    }
}
