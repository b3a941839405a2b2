// Sequences read by the rule, as the contract of a function that does nothing.
ghost use Rattle.std.specs.Prelude.{◌≡◌};
ghost use Rattle.utf8.specs.Sequences.{sequences, places_written, places_ruled};

// The rule finds in each sequence of the list the place that is told there.
pub fn sequences_as_read()
    ensures { places_ruled sequences ≡ places_written sequences }
{}
