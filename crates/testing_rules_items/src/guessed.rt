//! A search in an ordered list that tries a guessed place before it searches by halves.

ghost use Rattle.std.specs.Prelude.{◌≡◌, ◌<◌, ◌≤◌, ◌+◌, ◌-◌, IfErr, IfOk, IsTrue, length};
ghost use Rattle.std.specs.Fn.{ComputesKey};
ghost use Rattle.std.specs.List.{HoldsAt};
ghost use Rattle.std.specs.List.Sorted.{IsBinarySearchResult, IsSearchInRange};

use std::cmp::Ordering;

/// How the element at a place compares with the searched one. A missing element is above it.
fn order_at<T, F: Fn(&T) -> Ordering>(items: &[T], place: usize, order: &F) -> Ordering
    requires { F.IsAlwaysCallable order.now }
    ensures at { place < length items.now → (ord : T → Ordering) → ComputesKey F.FnMut ord order.now → HoldsAt (λ y. ord y ≡ result) items.now place }
    ensures past { length items.now ≤ place → result ≡ Ordering.Greater }
{
    match items.get(place) {
        Some(item) => order(item),
        None => Ordering::Greater,
    }
}

/// Whether the element before a place is below the searched one. A missing element is.
fn is_behind<T, F: Fn(&T) -> Ordering>(items: &[T], place: usize, order: &F) -> bool
    requires { F.IsAlwaysCallable order.now }
    ensures within { IsTrue result → place ≤ length items.now }
    ensures below { IsTrue result → (ord : T → Ordering) → ComputesKey F.FnMut ord order.now → 0 < place → HoldsAt (λ y. ord y ≡ Ordering.Less) items.now (place - 1) }
{
    match place.checked_sub(1) {
        Some(before) => order_at(items, before, order).is_lt(),
        None => true,
    }
}

/// The place of the searched element, or where it belongs. It is above the element at a place; the next place is tried
/// first.
fn search_behind<T, F: Fn(&T) -> Ordering>(
    items: &[T],
    place: usize,
    order: F,
) -> Result<usize, usize>
    requires call { F.IsAlwaysCallable order }
    requires within { place < length items.now }
    requires below { (ord : T → Ordering) → ComputesKey F.FnMut ord order → HoldsAt (λ y. ord y ≡ Ordering.Less) items.now place }
    ensures bound { IsSearchInRange result (length items.now) }
    ensures found { (ord : T → Ordering) → ComputesKey F.FnMut ord order → IsBinarySearchResult ord items.now result }
{
    let next = place + 1;
    match order_at(items, next, &order) {
        Ordering::Equal => Ok(next),
        Ordering::Greater => Err(next),
        Ordering::Less => items.binary_search_by(order),
    }
}

/// The place of the searched element in an ordered list, or where it belongs. `order` compares an element with it. The
/// guessed place is tried first, and then the next one.
pub fn search_near<T, F: Fn(&T) -> Ordering>(
    items: &[T],
    guess: usize,
    order: F,
) -> Result<usize, usize>
    requires { F.IsAlwaysCallable order }
    ensures bound { IsSearchInRange result (length items.now) }
    ensures found { (ord : T → Ordering) → ComputesKey F.FnMut ord order → IsBinarySearchResult ord items.now result }
{
    match order_at(items, guess, &order) {
        Ordering::Equal => Ok(guess),
        Ordering::Less => search_behind(items, guess, order),
        Ordering::Greater if is_behind(items, guess, &order) => Err(guess),
        Ordering::Greater => items.binary_search_by(order),
    }
}

/// The likely place of the element after one found, or belonging, at a place. It is a guess for the next search.
pub fn next_place(found: Result<usize, usize>) -> usize
    ensures ok { IfOk found (λ place. result ≤ place + 1) }
    ensures err { IfErr found (λ place. result ≡ place) }
{
    match found {
        Ok(place) => place.saturating_add(1),
        Err(place) => place,
    }
}
