//! Laws of places.
ghost use Rattle.text_chains.specs.Places.{AreCovered};

/// A law of places: if the places of a list are different ones and have all rows of a table that count, then a sum over these rows is
/// the sum over all rows, and some row at one of the places passes a test exactly if some row of the table does.
pub fn places_cover_rows<R>()
    ensures { AreCovered R }
{}
