// The law of the log, and its steps.
use crate::line::{Draft, Line};
use crate::rule::Rule;
use logbook::{Gain, Offer, Plain, Play, Rule as LogRule, Seen, Word};
use std::marker::PhantomData;

/// The law of the log: it keeps histories.
pub struct Law<O, E, C: Rule<O, E>> {
    of: PhantomData<(O, E, C)>,
}

/// The word that all share: the length of the history.
pub(crate) type Head<O, E, C> = Word<Line<O, E>, u64, Law<O, E, C>>;

/// Lines that were seen.
pub(crate) type Log<O, E, C> = Seen<Line<O, E>, u64, Law<O, E, C>>;

/// What a step asks for.
pub(crate) type Asked<O, E, C> = Offer<Line<O, E>, u64, Law<O, E, C>, Nothing>;

impl<O, E, C: Rule<O, E>> LogRule<Line<O, E>, u64> for Law<O, E, C> {
    ghost use Rattle.std.specs.Prelude.{[]};
    ghost use base.Fml.{ftrue};
    ghost use Rattle.shared_history.specs.Inner.Law.{IsKept};

    ghost holds = { λ cells log. IsKept C.may cells log };

    ghost first = { [] };

    ghost hinted = { λ n log. Unit {0} };

    ghost shows = { λ log. [] };

    ghost keeps = { λ names log. ftrue };

    ghost moves = { λ ask before after answer. Unit {0} };
}

/// Callers trade nothing.
pub struct Nothing;

impl<O, E> Gain<Line<O, E>, u64> for Nothing {
    ghost use base.Fml.{ftrue};

    ghost after = { λ names about answer. ftrue };
}

/// A step that makes a turn.
pub struct Draw<O, E, C: Rule<O, E>> {
    of: PhantomData<(O, E, C)>,
}

impl<O, E, C: Rule<O, E>> Play<Line<O, E>, u64> for Draw<O, E, C> {
    ghost use Rattle.shared_history.specs.Inner.Law.{Draws};

    ghost then = { Draws C.may };
}

/// A step that looks.
pub struct Look<O, E, C: Rule<O, E>> {
    of: PhantomData<(O, E, C)>,
}

impl<O, E, C: Rule<O, E>> Play<Line<O, E>, u64> for Look<O, E, C> {
    ghost use Rattle.shared_history.specs.Inner.Law.{Looks};

    ghost then = { Looks C.may };
}

/// A step that adds a line.
pub struct Add<O, E, C: Rule<O, E>> {
    of: PhantomData<(O, E, C)>,
}

impl<O, E, C: Rule<O, E>> Play<Line<O, E>, u64> for Add<O, E, C> {
    ghost use Rattle.shared_history.specs.Inner.Law.{Adds};

    ghost then = { Adds C.may };
}

impl<'a, O, E> Plain<Draft<'a, O, E>, Line<O, E>, u64> for Nothing {
    ghost use Rattle.std.specs.Prelude.{None};
    ghost use Rattle.shared_history.specs.Inner.Drafts.{line_of};

    ghost ask = { line_of };

    ghost state = { λ draft. None };
}

impl<O, E> Plain<(), Line<O, E>, u64> for Nothing {
    ghost use Rattle.std.specs.Prelude.{None};
    ghost use Rattle.shared_history.specs.Inner.Drafts.{no_line};

    ghost ask = { λ about. no_line };

    ghost state = { λ about. None };
}
