//! Laws of the drawing.

ghost use Rattle.std.specs.Prelude.{◌↔◌, ℕ, List, Contains};
ghost use Rattle.show_drawings.specs.DrawingsWords.CardDrawing.Holes.{Hole, IsPunched, holes_of};

/// The holes of a card are exactly those at which one of its columns is punched. The function does nothing: its contract is the law.
pub fn holes_are_punches()
    ensures holes { (columns : List ℕ) (hole : Hole) → Contains (holes_of columns) hole → IsPunched columns hole }
    ensures punches { (columns : List ℕ) (hole : Hole) → IsPunched columns hole → Contains (holes_of columns) hole }
{}
