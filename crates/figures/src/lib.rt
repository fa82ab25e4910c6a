//! The rules at figures that were worked out by hand.
#![tactic(auto)]

ghost use Rattle.figures.specs.Bounds.{BoundsInNumbers};
ghost use Rattle.figures.specs.Figures.{WorkedFigures};

/// The tariffs, the shares and the notices of revisions give the figures that were worked out by hand. The definitions are
/// those that the contracts of the code cite, so the figures hold of the code.
pub fn worked_figures()
    ensures { WorkedFigures }
{}

/// The bounds that the contracts of days and books cite by their names, in numbers.
pub fn bounds_in_numbers()
    ensures { BoundsInNumbers }
{}
