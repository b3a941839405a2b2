// What the definitions of demand 3 rule out, an example for each: a weaker definition would let it in. Each is the contract of a function
// that does nothing.
ghost use Rattle.std.specs.Prelude.{[]};
ghost use Rattle.fitting.specs.Grammar.{Fits, FitsWide};
ghost use Rattle.fitting.specs.Premises.{EndToEnd, Nests, SameButForCuts};
ghost use Rattle.fitting.specs.RuledOut.{with_gap, crossing, key_events, key_whole, key_cut, without_value, multi_line_header};

// Events with a place between them that none has do not lie end to end.
pub fn gap_not_end_to_end()
    ensures { EndToEnd 0 with_gap 3 → ⊥ }
{}

// An array that an inline table's bracket closes does not nest.
pub fn crossing_does_not_nest()
    ensures { Nests [] crossing [] → ⊥ }
{}

// A key cut otherwise is not the same: only an unquoted scalar may be.
pub fn key_cut_not_same()
    ensures { SameButForCuts key_events key_whole key_cut → ⊥ }
{}

// A pair without a value does not fit, however deep the nesting that is allowed.
pub fn without_value_does_not_fit()
    ensures { Fits without_value → ⊥ }
{}

// A multi-line string is no key, though a run over it is quiet: it fits the wide grammar.
pub fn multi_line_key_does_not_fit()
    ensures { Fits multi_line_header → ⊥ }
{}

pub fn multi_line_key_fits_wide()
    ensures { FitsWide multi_line_header }
{}
