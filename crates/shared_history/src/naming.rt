// Which history it is.
use std::marker::Brand;

/// Which history a type speaks of. Each call of a program picks it.
pub trait Naming {
    ghost use Rattle.logbook.specs.Pages.{Book as HistoryName};

    ghost book: { HistoryName };
}

impl Naming for Brand {
    ghost book = { record { number = 0; log_name = 0; cells_name = 0 } };
}
