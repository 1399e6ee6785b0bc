ghost use Rattle.std.specs.Prelude.{◌≡◌, ◌≤◌, ◌++◌, [], ◌∷◌, length, slice_index_or};
ghost use Rattle.std.specs.Cmp.Lexicographic.{slice_cmp};

use std::cmp::Ordering;

// The element at the index, or after the last one this one.
fn element_at<'a, T>(list: &'a [T], index: usize, after: &'a T) -> &'a T
    requires { index ≤ length list.now }
    ensures { (d : T) → result.now ≡ slice_index_or (list.now ++ after.now ∷ []) index d }
{
    if index < list.len() {
        &list[index]
    } else {
        after
    }
}

/// How two lists compare, each with one more element after it. Nothing is copied.
pub(crate) fn compare_pushed<T: Ord>(left: &[T], after: &T, right: &[T], other: &T) -> Ordering
    ensures { result ≡ slice_cmp T.cmp (left.now ++ after.now ∷ []) (right.now ++ other.now ∷ []) }
{
    let common = left.len().min(right.len());
    let next = element_at(left, common, after).cmp(element_at(right, common, other));
    left[..common]
        .cmp(&right[..common])
        .then(next)
        .then(left.len().cmp(&right.len()))
}
