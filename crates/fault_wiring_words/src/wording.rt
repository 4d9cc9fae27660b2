//! The words that are told of faults of a wiring chart, and those of its language.

// Entries.
pub(crate) const THE_FIRST_LINE_IS_THE_TITLE: &[u8] =
    b"the first line is WIRING407 1 or WIRING407 2, and nothing stands before it";

pub(crate) const WRITE_IT_THERE: &[u8] =
    b"write it there, or look whether this is a chart or a deck";

pub(crate) const LINE_2_IS_FORM_WITH_THREE_NUMBERS: &[u8] = b"line 2 is FORM with three numbers";

pub(crate) const WRITE_THE_FORM: &[u8] =
    b"FORM takes lines, first line and overflow line: FORM 66 6 60";

pub(crate) const TAKE_ONE_OF_THEM_OUT: &[u8] =
    b"  take one of them out, or correct the one that was to be another\n";

pub(crate) const A_FORM_HAS_3_TO_144_LINES: &[u8] =
    b"  a form has 3 to 144 lines, and the other two numbers are lines of it; the lines below are looked at once it is right\n";

pub(crate) const TOO_LARGE: &[u8] =
    b"fault 71 TooLarge\n  a wiring chart has 1,000,000 lines of 60 bytes at most\n  take out empty lines and spaces, or look whether this is another text\n";

pub(crate) const NO_END: &[u8] =
    b"fault 76 NoEnd\n  no line has END alone\n  the last line of a wiring chart is END\n";

pub(crate) const THERE_MAY_BE_MORE: &str = "500 faults are listed, and there may be more\n";

// The first words of lines, what each form takes, and what may be meant.
pub(crate) const WIRE_TAKES: &str =
    "WIRE takes an exit and an entry, with a space between them: WIRE SR.1 W.1";

pub(crate) const STOP_TAKES: &str =
    "STOP takes a channel 2 to 11 and a line of the form: STOP 3 20";

pub(crate) const JACK_TAKES: &str =
    "JACK takes LIST, TOTAL 1 to 4, HEAD 1 to 3, or LINK, SUPPRESS or SYMBOL and a wheel 1 to 120: JACK LINK 7";

pub(crate) const RING_TAKES: &str =
    "RING takes a counter group, its width and its number: RING 3.1";

pub(crate) const COUPLE_TAKES: &str =
    "COUPLE takes the numbers of two different groups of 8 positions: COUPLE 1 2";

pub(crate) const FORM_TAKES: &str =
    "FORM takes three numbers, lines, first line and overflow line: FORM 66 6 60";

pub(crate) const END_STANDS_ALONE: &str = "END stands alone, and nothing behind it";

pub(crate) const A_LINE_BEGINS_WITH: &str =
    "a line begins with STOP, JACK, WIRE or END, in version 2 with RING or COUPLE too";

pub(crate) const MEANT_WIRE: &str = "did you mean WIRE?";

pub(crate) const MEANT_STOP: &str = "did you mean STOP?";

pub(crate) const MEANT_JACK: &str = "did you mean JACK?";

pub(crate) const MEANT_RING: &str = "did you mean RING?";

pub(crate) const MEANT_COUPLE: &str = "did you mean COUPLE?";

pub(crate) const MEANT_END: &str = "did you mean END?";

pub(crate) const MEANT_LIST: &str = "did you mean LIST?";

pub(crate) const MEANT_TOTAL: &str = "did you mean TOTAL?";

pub(crate) const MEANT_HEAD: &str = "did you mean HEAD?";

pub(crate) const MEANT_LINK: &str = "did you mean LINK?";

pub(crate) const MEANT_SUPPRESS: &str = "did you mean SUPPRESS?";

pub(crate) const MEANT_SYMBOL: &str = "did you mean SYMBOL?";

pub(crate) const THE_JACKS_ARE: &str = "the jacks are LIST, TOTAL, HEAD, LINK, SUPPRESS and SYMBOL";

pub(crate) const JACK_TOTAL_TAKES: &str = "JACK TOTAL takes a level 1 to 4";

pub(crate) const JACK_HEAD_TAKES: &str = "JACK HEAD takes a heading cycle 1 to 3";

pub(crate) const WHEEL_JACKS_TAKE: &str = "LINK, SUPPRESS and SYMBOL take a wheel 1 to 120";

// Hubs: what each has, and words that are none.
pub(crate) const COLUMNS: &str = "columns 1 to 80";

pub(crate) const COMPARING_POSITIONS: &str = "comparing positions 1 to 30";

pub(crate) const A_COUNTER_POSITION: &str =
    "a counter group, its width 3, 4, 6 or 8 and its number 1 to 8, and a position 1 to the width";

pub(crate) const A_COUNTER_GROUP: &str =
    "a counter group, its width 3, 4, 6 or 8 and its number 1 to 8";

pub(crate) const A_BALANCE_POSITION: &str =
    "a counter group, its width 3, 4, 6 or 8 and its number 1 to 8, and a balance position 1 to 4";

pub(crate) const A_PILOT_POSITION: &str = "a pilot 1 to 16 and its position 1 to 3";

pub(crate) const PILOTS: &str = "pilots 1 to 16";

pub(crate) const A_STORAGE_COLUMN: &str = "a storage unit 1 to 4 and its column 1 to 16";

pub(crate) const STORAGE_UNITS: &str = "storage units 1 to 4";

pub(crate) const AN_INDICATE_POSITION: &str = "a level 1 to 3 and an indicate position 1 to 30";

pub(crate) const COLUMN_SPLITS: &str = "column splits 1 to 16";

pub(crate) const AN_EMITTER_ROW: &str = "an emitter 1 to 8 and a row 0 to 9, 11 or 12";

pub(crate) const NO_NUMBER: &str = "no number";

pub(crate) const A_PROGRAM_CYCLE: &str = "a level 1 to 4 and a cycle 1 to 3";

pub(crate) const HEADING_CYCLES: &str = "heading cycles 1 to 3";

pub(crate) const WHEELS: &str = "wheels 1 to 120";

pub(crate) const LEVELS: &str = "levels 1 to 3";

pub(crate) const SPACING_HUBS: &str = "the hubs SP.2 and SP.3, for 2 and 3 lines";

pub(crate) const CHANNELS: &str = "channels 1 to 12";

pub(crate) const HAS: &[u8] = b" has ";

pub(crate) const DID_YOU_MEAN: &[u8] = b"did you mean ";

pub(crate) const IS_A_HUB_OF_THE_PANEL: &[u8] = b" is a hub of the panel";

pub(crate) const THE_PANEL_HAS_NO: &[u8] = b"the panel has no ";

pub(crate) const IS_MISNUMBERED: &[u8] =
    b" is no hub: a number is missing, one too many or written wrongly; each has a point before it, and no leading zero";

pub(crate) const NO_HUB_HAS_THE_LETTERS: &[u8] = b"no hub has the letters ";

pub(crate) const IS_NO_HUB: &[u8] = b" is no hub";

pub(crate) const A_HUB_IS: &[u8] =
    b"a hub is its letters and its numbers, a point before each: SR.17 or GX.4.1.2";

// Lines that are none of a wiring chart.
pub(crate) const NO_COMMENTS: &str = "a wiring chart has no comments";

pub(crate) const NO_QUOTATION_MARKS: &str =
    "a wiring chart has no quotation marks, and only ASCII characters";

pub(crate) const NO_APOSTROPHES: &str = "a wiring chart has no apostrophes";

pub(crate) const ONLY_CAPITAL_LETTERS: &str = "a wiring chart has only capital letters";

pub(crate) const THIS_CHARACTER_STANDS_ON_NO_LINE: &str =
    "this character stands on no line: a wiring chart has capital letters, digits, points and spaces";

pub(crate) const THIS_IS_NO_LINE: &str = "this is no line of a wiring chart";

pub(crate) const NO_LINE_BEGINS_WITH: &[u8] = b"no line begins with ";

pub(crate) const NOTHING_STANDS_BEHIND: &[u8] = b"nothing stands behind ";

pub(crate) const WIRE_TAKES_TWO_HUBS: &[u8] = b"WIRE takes two hubs";

pub(crate) const TWO_HUBS_STAND_IN_ONE_WORD: &[u8] = b"two hubs stand in one word";

pub(crate) const A_WORD_TOO_MANY_STANDS_HERE: &[u8] = b"a word too many stands here";

pub(crate) const A_CARRY_HAS_A_LINE_OF_ITS_OWN: &[u8] =
    b"in version 2 a carry has a line of its own";

pub(crate) const THE_CHANNEL_OF_A_STOP_IS: &[u8] = b"the channel of a stop is 2 to 11";

pub(crate) const A_STOP_STANDS_AT_A_LINE: &[u8] = b"a stop stands at a line of the form";

pub(crate) const THE_PANEL_HAS_NO_JACK: &[u8] = b"the panel has no jack ";

pub(crate) const THE_PANEL_HAS_NO_SUCH_JACK: &[u8] = b"the panel has no such jack";

pub(crate) const IS_A_WORD_OF_VERSION_2: &[u8] = b" is a word of version 2";

pub(crate) const NOT_THE_NUMBERS_OF_A_CARRY: &[u8] = b"these are not the numbers of a carry";

pub(crate) const FORM_STANDS_ON_LINE_2_ALONE: &[u8] = b"FORM stands on line 2 alone";

pub(crate) const SOMETHING_STANDS_BEHIND_END: &[u8] = b"something stands behind END";

pub(crate) const DID_YOU_MEAN_WIRE: &[u8] = b"did you mean WIRE ";

pub(crate) const WRITE_RING_OR_COUPLE: &[u8] =
    b"write RING 3.1 for the carry of one group, and COUPLE 1 2 for a carry between two groups of 8 positions";

pub(crate) const WRITE_VERSION_2: &[u8] =
    b"write WIRING407 2 on line 1, or the carry as a WIRE from CO to CI";

pub(crate) const TAKE_IT_OUT_OR_CORRECT_LINE_2: &[u8] = b"take it out, or correct line 2";

// Lines that stood before, and lines that the panel can't have.
pub(crate) const THE_COUNTER_GROUPS_ARE: &[u8] =
    b"a counter group has 3, 4, 6 or 8 positions, and there are 8 of each width";

pub(crate) const A_WIRE_LEADS_FROM_EXIT_TO_ENTRY: &[u8] =
    b"a wire leads from an exit to an entry: WIRE SR.1 W.1";

pub(crate) const ANOTHER_LINE: &[u8] = b"another line";

pub(crate) const SAYS_THIS_ALREADY: &[u8] = b" says this already";

pub(crate) const IS_AN_ENTRY: &[u8] = b" is an entry, and a wire begins at an exit";

pub(crate) const IS_AN_EXIT: &[u8] = b" is an exit, and a wire ends at an entry";

pub(crate) const THERE_IS_NO_COUNTER_GROUP: &[u8] = b"there is no counter group ";

pub(crate) const THERE_IS_NO_COUNTER_GROUP_OF_8: &[u8] = b"there is no counter group 8.";

pub(crate) const LEADS_TO_A_CI: &[u8] = b" leads to a CI, and to nothing else";

pub(crate) const IS_FED_BY_A_CO: &[u8] = b" is fed by a CO, and by nothing else";

pub(crate) const A_CARRY_STAYS_IN_ITS_GROUP: &[u8] =
    b"a carry stays in its group, or goes from one group of 8 positions to another";

pub(crate) const WIRES_THE_CARRY_IN_ANOTHER_WAY: &[u8] =
    b" wires the carry of one of these groups in another way";

pub(crate) const THE_FORM_HAS: &str = "the form has ";

pub(crate) const ONE_LINE: &str = " line";

pub(crate) const ITS_FIRST_LINE_IS: &str = ", its first line is ";

pub(crate) const AND_ITS_OVERFLOW_LINE: &str = " and its overflow line ";

pub(crate) const A_CO_LEADS_TO_ONE_CI: &[u8] =
    b"a CO leads to one CI and a CI is fed by one CO, and three groups are never joined";

pub(crate) const MOVE_THE_STOP: &[u8] =
    b"move the stop to one of them, or give the form more lines";
