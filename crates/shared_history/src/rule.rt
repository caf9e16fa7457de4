// What may be called.
/// Which events may follow: `may origin before event`, with the origin of the history and the events so far.
pub trait Rule<O, E> {
    ghost use Rattle.std.specs.Prelude.{List};

    ghost may: { O → List E → E → Type 0 };
}
