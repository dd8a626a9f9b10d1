//! The rule of the table, and how views are cut, made one, and changed.
use crate::choices::{Chosen, ChosenRange};
use crate::views::View;
use atomic_table::{Join, Play, Split, TableRule};
use std::marker::PhantomData;

/// Each unit of an opened root is covered once, and each root number stands in one place at most.
pub(crate) struct OnceEach;

impl TableRule<(), View, ()> for OnceEach {
    ghost use Rattle.std.specs.Prelude.{◌^◌};
    ghost use Rattle.deed_table.specs.Rule.{CoversOnceEach};
    ghost use Rattle.deed_table.specs.View.{opener};

    ghost holds = { λ _ state. CoversOnceEach state.views };

    ghost first = { λ _. opener 0 (2 ^ 32) };
}

/// A deed's range is cut at the number.
pub(crate) struct CutAt<C> {
    chosen: PhantomData<C>,
}

impl<C: Chosen> Split<View> for CutAt<C> {
    ghost use Rattle.deed_table.specs.View.{low_part, high_part};

    ghost left = { low_part C.number };

    ghost right = { high_part C.number };
}

/// Two ranges that touch become one.
pub(crate) struct Merge;

impl Join<View> for Merge {
    ghost use Rattle.deed_table.specs.View.{merged_view, spent_view};

    ghost both = { merged_view };

    ghost spent = { spent_view };
}

/// Two views lie beside each other.
pub(crate) struct Beside;

impl Join<View> for Beside {
    ghost use Rattle.deed_table.specs.View.{view_of_both, spent_view};

    ghost both = { view_of_both };

    ghost spent = { spent_view };
}

/// The first range stays, and the others go to a new seat.
pub(crate) struct Part;

impl Split<View> for Part {
    ghost use Rattle.deed_table.specs.View.{first_part, other_part};

    ghost left = { first_part };

    ghost right = { other_part };
}

/// The first numbers go to a new seat.
pub(crate) struct Share<C> {
    chosen: PhantomData<C>,
}

impl<C: Chosen> Split<View> for Share<C> {
    ghost use Rattle.deed_table.specs.View.{numbers_after, numbers_below};

    ghost left = { numbers_after C.number };

    ghost right = { numbers_below C.number };
}

/// Nothing changes, and the rule is learnt.
pub(crate) struct Learn;

impl Play<(), View> for Learn {
    ghost use Rattle.deed_table.specs.Rule.{Learns};

    ghost then = { Learns };
}

/// The number that is left becomes a root, which is covered whole.
pub(crate) struct Open<C> {
    placed: PhantomData<C>,
}

impl<C: ChosenRange> Play<(), View> for Open<C> {
    ghost use Rattle.deed_table.specs.Rule.{Opens};

    ghost then = { Opens C.range };
}
