//! The laws of the words on histories, which `specs/History.antt` defines.

ghost use Rattle.std.specs.Prelude.{◌≡◌, List, [], ◌∷◌, ◌++◌, Option};
ghost use Rattle.bosh_base.specs.History.{chosen, latest, latest_seen, EachAfter, Always, AlwaysFrom, Extends};

/// What permits an item of a history after those before it.
pub trait Rule {
    type Item;

    ghost permits: { List Self.Item → Self.Item → Type 0 };
}

/// What the histories that a rule permits keep: each permitted item keeps it.
pub trait Invariant: Rule {
    ghost holds: { List Self.Item → Type 0 };

    ghost step: { (before : List Self.Item) (item : Self.Item) → holds before
        → Self.permits before item → holds (before ++ item ∷ []) };
}

/// One more item is the latest: it answers, or else those before it do.
pub fn latest_of_one_more<X, A>()
    ensures { (answer : X → Option A) (otherwise : A) (history : List X) (item : X)
        → latest answer otherwise (history ++ item ∷ [])
        ≡ chosen (answer item) (latest answer otherwise history) }
{}

/// The same where an answer sees the items before its own.
pub fn latest_seen_of_one_more<X, A>()
    ensures { (answer : List X → X → Option A) (otherwise : A) (before history : List X) (item : X)
        → latest_seen answer otherwise before (history ++ item ∷ [])
        ≡ chosen (answer (before ++ history) item) (latest_seen answer otherwise before history) }
{}

/// One more permitted item.
pub fn each_of_one_more<R: Rule>()
    ensures { (before history : List R.Item) (item : R.Item) → EachAfter R.permits before history
        → R.permits (before ++ history) item → EachAfter R.permits before (history ++ item ∷ []) }
{}

/// One permitted history after another.
pub fn each_of_two<R: Rule>()
    ensures { (before history more : List R.Item) → EachAfter R.permits before history
        → EachAfter R.permits (before ++ history) more
        → EachAfter R.permits before (history ++ more) }
{}

/// A front of a permitted history is permitted, and what comes after it is permitted after it.
pub fn each_of_a_front<R: Rule>()
    ensures front { (before history more : List R.Item)
        → EachAfter R.permits before (history ++ more) → EachAfter R.permits before history }
    ensures rest { (before history more : List R.Item)
        → EachAfter R.permits before (history ++ more)
        → EachAfter R.permits (before ++ history) more }
{}

/// One more front on which a statement holds.
pub fn always_of_one_more<I: Invariant>()
    ensures { (before history : List I.Item) (item : I.Item) → AlwaysFrom I.holds before history
        → I.holds (before ++ history ++ item ∷ [])
        → AlwaysFrom I.holds before (history ++ item ∷ []) }
{}

/// What holds of every front holds of a front, and of the whole.
pub fn always_of_a_front<I: Invariant>()
    ensures { (before history more : List I.Item) → AlwaysFrom I.holds before (history ++ more)
        → I.holds (before ++ history) }
{}

/// An invariant that holds at the start, and that each permitted item keeps, holds at the end and of every front.
pub fn kept_along<I: Invariant>()
    ensures at_the_end { (before history : List I.Item) → I.holds before
        → EachAfter I.permits before history → I.holds (before ++ history) }
    ensures always { (before history : List I.Item) → I.holds before
        → EachAfter I.permits before history → AlwaysFrom I.holds before history }
{}

/// A history goes on from itself and from each of its fronts, and from what a front goes on from.
pub fn extends<X>()
    ensures itself { (history : List X) → Extends history history }
    ensures front { (history more : List X) → Extends history (history ++ more) }
    ensures chain { (first second third : List X) → Extends first second → Extends second third
        → Extends first third }
{}
