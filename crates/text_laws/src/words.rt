//! Laws of the words of commands.

ghost use Rattle.text_laws.specs.Places.{PlacesAreFurthest};

/// Words that are no command begin one up to the place of the fault, and no further: some words behind them make a
/// command, and none do where one word more is kept.
pub fn law_places()
    ensures { PlacesAreFurthest }
{}
