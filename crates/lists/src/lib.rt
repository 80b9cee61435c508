// Lists of 16 with a length, for the Rust's Vec: pane ids, tile ids and reals alike.
// A list that is made afresh has blanks past its length, and `push` and `replace`, which work in place, leave them there.
#![tactic(auto)]

ghost use Rattle.std.specs.Prelude.{◌≡◌, [], ◌∷◌, ◌≤◌, ◌<◌, leb, get_or, replicate, take};
ghost use Rattle.rules.specs.Lists.{insert_at, remove_at};
ghost use Rattle.rules.specs.Lists as Rule;
ghost use Rattle.rules.specs.Tree.{listed};
ghost use Rattle.lists.specs.Exact.{Exactly, Pushed, Replaced};
ghost use Rattle.lists.specs.Find.{place_of};

use crate::blank::Blank;
use rules::model::Sixteen;

pub mod blank;

// Vec::new
pub fn empty<T: Blank>() -> Sixteen<T>
    ensures { Exactly T.blank result.at result.len [] }
{
    Sixteen {
        at: [T::blank(); 16],
        len: 0,
    }
}

// A Vec never is; a list of 16 has no room for a seventeenth.
pub fn is_full<T: Copy>(l: Sixteen<T>) -> bool
    ensures { result ≡ leb 16 l.len }
{
    16 <= l.len
}

// `get`, with what to answer past the end.
pub fn get<T: Copy>(l: Sixteen<T>, i: usize, other: T) -> T
    ensures { result ≡ get_or (listed l) i other }
{
    if l.len <= i {
        return other;
    }
    if 16 <= i {
        return other;
    }
    l.at[i]
}

// Vec::push, in place.
pub fn push<T: Copy>(l: Sixteen<T>, x: T) -> Sixteen<T>
    requires { l.len < 16 }
    ensures { Pushed x l.at l.len result.at result.len }
{
    let mut at = l.at;
    let n = l.len;
    at[n] = x;
    Sixteen { at, len: n + 1 }
}

// `shares[i] = share`, in place.
pub fn replace<T: Copy>(l: Sixteen<T>, i: usize, x: T) -> Sixteen<T>
    requires { (i < l.len) × (l.len ≤ 16) }
    ensures { Replaced i x l.at l.len result.at result.len }
{
    let mut at = l.at;
    at[i] = x;
    Sixteen { at, len: l.len }
}

// The entry at j once x stands at p.
fn inserted<T: Blank>(l: Sixteen<T>, p: usize, x: T, j: usize) -> T
    requires { (p ≤ l.len) × (l.len ≤ 16) }
    ensures { result ≡ get_or (insert_at p x (listed l)) j T.blank }
{
    if j < p {
        return get(l, j, T::blank());
    }
    if j == p {
        return x;
    }
    get(l, j - 1, T::blank())
}

// Vec::insert
pub fn insert<T: Blank>(l: Sixteen<T>, p: usize, x: T) -> Sixteen<T>
    requires { (p ≤ l.len) × (l.len < 16) }
    ensures { Exactly T.blank result.at result.len (insert_at p x (listed l)) }
{
    let n = l.len + 1;
    let mut at = [T::blank(); 16];
    for j in 0..n {
        at[j] = inserted(l, p, x, j);
    }
    Sixteen { at, len: n }
}

// The entry at j once the one at p is gone.
fn left<T: Blank>(l: Sixteen<T>, p: usize, j: usize) -> T
    requires { j < 16 }
    ensures { result ≡ get_or (remove_at p (listed l)) j T.blank }
{
    if p <= j {
        return get(l, j + 1, T::blank());
    }
    get(l, j, T::blank())
}

// Vec::remove; the caller has the entry by `get` first.
pub fn remove<T: Blank>(l: Sixteen<T>, p: usize) -> Sixteen<T>
    requires { (p < l.len) × (l.len ≤ 16) }
    ensures { Exactly T.blank result.at result.len (remove_at p (listed l)) }
{
    let n = l.len - 1;
    let mut at = [T::blank(); 16];
    for j in 0..n {
        at[j] = left(l, p, j);
    }
    Sixteen { at, len: n }
}

// The first n: a Vec's `truncate`.
pub fn first<T: Blank>(l: Sixteen<T>, n: usize) -> Sixteen<T>
    requires { (n ≤ l.len) × (l.len ≤ 16) }
    ensures { Exactly T.blank result.at result.len (take n (listed l)) }
{
    let old = l.at;
    let mut at = [T::blank(); 16];
    at[..n].copy_from_slice(&old[..n]);
    Sixteen { at, len: n }
}

// `vec![x; n]`
pub fn repeat<T: Blank>(n: usize, x: T) -> Sixteen<T>
    requires { n ≤ 16 }
    ensures { Exactly T.blank result.at result.len (replicate n x) }
{
    let all = [x; 16];
    let mut at = [T::blank(); 16];
    at[..n].copy_from_slice(&all[..n]);
    Sixteen { at, len: n }
}

// `vec![a, b]`
pub fn two<T: Blank>(a: T, b: T) -> Sixteen<T>
    ensures { Exactly T.blank result.at result.len (a ∷ b ∷ []) }
{
    let none = empty();
    let one = push(none, a);
    push(one, b)
}

// `iter().position(|y| y == x)`
pub fn position<T: Copy + PartialEq>(l: Sixteen<T>, x: T) -> Option<usize>
    requires { l.len ≤ 16 }
    ensures { place_of result ≡ Rule.position (T.eq x) (listed l) }
{
    for i in 0..l.len {
        if x == l.at[i] {
            return Some(i);
        }
    }
    None
}
