ghost use Rattle.std.specs.Prelude.{◌≡◌, Err, IfOk, MatchOption};
ghost use Rattle.std.specs.Option.{ForSome};
ghost use Rattle.toml_reading.specs.Readings.{Faults, after, pair, check, items_in, lower, lower_with};
ghost use Rattle.toml_reading.specs.Readings.{out_of_range_of, rank_of, unknown_key_of, wrong_kind_of};

use std::alloc::AllocError;

/// What is read of a text: a value, or the lowest of the faults of its parts.
pub type Reading<T, F> = Result<T, F>;

/// The faults of a format.
pub trait Fault: Copy + Drop {
    ghost faults: { Faults Self };

    /// The place in the order of the faults: of several the lowest is answered.
    fn rank(self) -> u32
        ensures { result ≡ rank_of faults self };

    /// A table has a key that it may not have.
    fn unknown_key() -> Self
        ensures { result ≡ unknown_key_of faults };

    /// A key is missing, or its value has another type than the key takes.
    fn wrong_kind() -> Self
        ensures { result ≡ wrong_kind_of faults };

    /// A number is none of those that its key takes.
    fn out_of_range() -> Self
        ensures { result ≡ out_of_range_of faults };
}

fn lower<F: Fault>(fault: F, other: F) -> F
    ensures { result ≡ lower F.faults fault other }
{
    if fault.rank() <= other.rank() {
        fault
    } else {
        other
    }
}

// The lower of a fault and another, if there is one.
fn lower_with<F: Fault>(fault: F, other: Option<F>) -> F
    ensures { result ≡ lower_with F.faults fault other }
{
    let Some(other) = other else {
        return fault;
    };
    lower(fault, other)
}

/// What is read of a value that must be there.
pub fn required<T, U, F: Fault, R: FnOnce(T) -> Reading<U, F>>(
    value: Option<T>,
    read: R,
) -> Reading<U, F>
    requires { ForSome value (R.pre read) }
    ensures { MatchOption value (result ≡ Err (wrong_kind_of F.faults)) (λ v. R.post read v result) }
{
    match value {
        Some(value) => read(value),
        None => Err(F::wrong_kind()),
    }
}

/// The reading, with one more condition.
pub(crate) fn check<T: Drop, F: Fault>(
    holds: bool,
    fault: F,
    reading: Reading<T, F>,
) -> Reading<T, F>
    ensures { result ≡ check F.faults holds fault reading }
{
    if holds {
        return reading;
    }
    Err(lower_with(fault, reading.err()))
}

/// Two parts.
pub fn pair<T: Drop, U: Drop, F: Fault>(
    first: Reading<T, F>,
    second: Reading<U, F>,
) -> Reading<(T, U), F>
    ensures { result ≡ pair F.faults first second }
{
    let a = match first {
        Ok(a) => a,
        Err(fault) => return Err(lower_with(fault, second.err())),
    };
    match second {
        Ok(b) => Ok((a, b)),
        Err(fault) => Err(fault),
    }
}

/// The parts of a list, with one more.
///
/// # Errors
///
/// An allocation failed.
pub fn append<T: Drop, F: Fault>(
    list: Reading<Vec<T>, F>,
    next: Reading<T, F>,
) -> Result<Reading<Vec<T>, F>, AllocError>
    ensures { IfOk result (λ longer. items_in longer ≡ after F.faults (items_in list) next) }
{
    let mut items = match list {
        Ok(items) => items,
        Err(fault) => return Ok(Err(lower_with(fault, next.err()))),
    };
    let item = match next {
        Ok(item) => item,
        Err(fault) => return Ok(Err(fault)),
    };
    items.push(item)?;
    Ok(Ok(items))
}
