// A receiver mast.
ghost use Rattle.std.specs.Prelude.{Some};
ghost use Rattle.costs.specs.Texts.{mast_words};

use std::fmt;

// A mast's place, in doubled coordinates: twice the distance from the start and twice the height, in centimetres.
#[derive(Clone, Copy, Debug, PartialEq, Eq)]
pub struct Mast {
    pub distance: i32,
    pub height: i32,
}

impl fmt::Display for Mast {
    ghost output = { λ m. Some (mast_words m) };

    fn fmt<W: fmt::Write>(&self, f: &mut fmt::Formatter<W>) -> fmt::Result {
        write!(f, "{} {}", self.distance, self.height)
    }
}
