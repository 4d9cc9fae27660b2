//! What marked words mean.

ghost use Rattle.fault_lists.specs.MarkedWords.{MarkedWordsStandInNoForm};

/// No form of a chart begins with the words of a line up to the one that is marked because the forms end there. The function does nothing:
/// its contract is the law.
pub fn marked_words_stand_in_no_form()
    ensures { MarkedWordsStandInNoForm }
{}
