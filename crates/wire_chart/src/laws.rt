//! Laws of wiring charts. The function does nothing: its contract is the laws.

ghost use Rattle.wire_chart.specs.Laws.{WrittenTextsReadBack, TextsReadAsOneSetup, SetupsHaveOneText, SetupsHaveOneTextIn, ReadTextsHaveNoFault, TextsHaveOneFault};

/// What is written of a setup reads as that setup, a text reads as one setup at most and has one fault at most, never
/// both, and a setup has one text, in each version and of those that `write_setup` writes.
pub fn wiring_texts_and_setups_are_one_to_one()
    ensures read_back { WrittenTextsReadBack }
    ensures one_setup { TextsReadAsOneSetup }
    ensures one_text { SetupsHaveOneText }
    ensures one_text_in { SetupsHaveOneTextIn }
    ensures no_fault { ReadTextsHaveNoFault }
    ensures one_fault { TextsHaveOneFault }
{}
