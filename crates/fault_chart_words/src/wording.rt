//! The words that are told of faults of a chart.

// Forms.
pub(crate) const THE_FORM_HAS: &str = "the form has ";

pub(crate) const ONE_LINE: &str = " line";

pub(crate) const ITS_FIRST_LINE_IS: &str = ", its first line is ";

pub(crate) const ITS_OVERFLOW_LINE: &str = ", its overflow line ";

pub(crate) const DID_YOU_MEAN_FORM: &str = "; did you mean FORM ";

// Other lines, items and their wheels.
pub(crate) const ANOTHER_LINE: &[u8] = b"another line";

pub(crate) const THE_LITERAL: &[u8] = b"the literal";

pub(crate) const TO: &str = " to ";

pub(crate) const TAKES_WHEEL: &str = " takes wheel";

pub(crate) const BEGINS_AT_WHEEL: &str = " begins at wheel ";

pub(crate) const AND_IT_MEETS: &[u8] = b", and ";

pub(crate) const OF_LINE: &str = " of line ";

// What is wrong with a line, and what helps.
pub(crate) const AND_ITS_SIGN_IN_COLUMN: &str = " and its sign in column ";

pub(crate) const HAS_COLUMN: &str = " has column";

pub(crate) const HAS: &str = " has ";

pub(crate) const ONE_DIGIT: &str = " digit";

pub(crate) const AND: &str = " and ";

pub(crate) const ONE_DECIMAL: &str = " decimal";

pub(crate) const IS_AN_AMOUNT_WITHOUT_DIGITS: &str =
    " is an amount, and the digits of its total are missing";

pub(crate) const IS_AN_AMOUNT: &str = " is an amount, and a text belongs here";

pub(crate) const IS_A_TEXT: &[u8] = b" is a text, and an amount belongs here";

pub(crate) const INDICATE: &str = "INDICATE ";

pub(crate) const TOTAL: &str = "TOTAL ";

pub(crate) const WANTS_A_CONTROL: &str = " wants a CONTROL ";

pub(crate) const HAS_A_TOTAL_OF: &str = " has a total of ";

pub(crate) const ONE_COLUMN: &str = " column";

pub(crate) const AND_ITS_TOTAL: &str = ", and its total ";

pub(crate) const HAS_A_SIGN_COLUMN: &[u8] = b" has a sign column, and here no MARK";

pub(crate) const HAS_NO_SIGN_COLUMN: &[u8] = b" has no sign column, and here a MARK";

pub(crate) const NO_DETAIL_LINE: &str = "no DETAIL line puts anything on the line of a card";

pub(crate) const NO_TOTAL_LINE: &str = "no TOTAL line puts anything on a total line";

pub(crate) const NOTHING_IS_PRINTED_THERE: &str =
    "nothing is printed on this kind of line: no DETAIL or TOTAL item names it";

pub(crate) const PRINT_GROUP_PRINTS_TOTALS: &str = "PRINT GROUP prints totals alone";

pub(crate) const CHANNEL: &str = "channel ";

pub(crate) const HAS_NO_TAPE_LINE: &str = " has no TAPE line";

pub(crate) const A_SKIP_GOES_TO_A_CHANNEL: &[u8] = b"a skip goes to a channel from 2 to 11";

pub(crate) const THE_CHANNEL_IS: &str = "the channel is ";

pub(crate) const AND_ONLY_2_TO_11_HAVE_STOPS: &str = ", and only 2 to 11 have stops";

pub(crate) const THE_STOPS_DONT_RISE: &[u8] =
    b"the stops don't rise, or one of them is not on the form";

pub(crate) const IT_TAKES_TWO_GROUPS: &str =
    ": it takes two counter groups, and the word COUPLED is missing";

pub(crate) const ONE_GROUP_IS_ENOUGH: &str =
    ": one counter group is enough, without the word COUPLED";

pub(crate) const THE_TOTAL_NEEDS: &str = "the total needs ";

pub(crate) const ONE_POSITION: &str = " position";

pub(crate) const IS_DESCRIBED_ALREADY_ON: &[u8] = b" is described already, on ";

pub(crate) const NO_FIELD_LINE_DESCRIBES: &[u8] = b"no FIELD line describes ";

pub(crate) const DID_YOU_MEAN: &[u8] = b"; did you mean ";

pub(crate) const THE_LINE_OF_A_CARD: &[u8] = b"the line of a card";

pub(crate) const IS_ON: &[u8] = b" is on ";

pub(crate) const ALREADY_BY: &[u8] = b" already, by ";

pub(crate) const IS_A_PRINT_LINE_ALREADY: &str = " is a PRINT line already";

pub(crate) const IS_A_FORM_LINE_ALREADY: &str = " is a FORM line already";

pub(crate) const HAS_THIS_LEVEL_AND_FIELD_ALREADY: &str = " has this level and field already";

pub(crate) const SPACES_THIS_KIND_OF_LINE_ALREADY: &str = " spaces this kind of line already";

pub(crate) const SAYS_WHAT_FOLLOWS_ALREADY: &str = " says already what follows this kind of line";

pub(crate) const IS_A_TAPE_LINE_ALREADY: &str = " is a TAPE line of this channel already";

pub(crate) const SAYS_THIS_ALREADY: &str = " says this already";

pub(crate) const IS_NO_CONTROL_FIELD_OF_LEVEL: &[u8] = b" is no control field of level ";

pub(crate) const OR_A_HIGHER_ONE: &[u8] = b" or a higher one";

pub(crate) const TOTAL_4_HAS_NO_TEXT: &[u8] =
    b"TOTAL 4 has no text of a field: it is of the whole deck";

pub(crate) const HAS_A_LOWER_TOTAL_OF: &[u8] = b" has a lower total of ";

pub(crate) const IN_MORE_DIGITS: &[u8] = b" in more digits";

pub(crate) const THERE_IS_NO_PRINT_LINE: &str = "there is no PRINT line";

pub(crate) const THERE_IS_NO_FORM_LINE: &str = "there is no FORM line";

pub(crate) const FEWER_DIGITS: &str = "an amount has 8 digits at most: divide the field";

pub(crate) const FEWER_DECIMALS: &str =
    "an amount has 3 decimals at most, and no more than digits: give fewer decimals";

pub(crate) const WRITE_CONTROL_1: &str =
    "write CONTROL 1 and the field whose changes end a group of level 1";

pub(crate) const WRITE_CONTROL_2: &str =
    "write CONTROL 2 and the field whose changes end a group of level 2";

pub(crate) const WRITE_CONTROL_3: &str =
    "write CONTROL 3 and the field whose changes end a group of level 3";

pub(crate) const TAKE_OUT_OR_PRINT_ON_DETAIL: &str =
    "take the line out, or print it on the DETAIL line";

pub(crate) const MAKE_IT_A_CONTROL_FIELD: &str =
    "make it a control field of that level, or print it on the DETAIL line";

pub(crate) const WRITE_A_DETAIL_LINE: &str = "write a DETAIL line";

pub(crate) const WRITE_A_TOTAL_LINE: &str = "write a TOTAL line";

pub(crate) const TAKE_OUT_OR_WRITE_THE_ITEM: &str = "take the line out, or write the item";

pub(crate) const WRITE_PRINT_DETAIL: &str = "write PRINT DETAIL, or take the DETAIL lines out";

pub(crate) const A_FORM_IS: &str =
    "FORM P T O: P is at most 144, O at most P - 2, and T is 1 or more and less than O; the headings begin on T and must end above O";

pub(crate) const WRITE_A_PRINT_LINE: &str = "write PRINT DETAIL or PRINT GROUP";

pub(crate) const GIVE_IT_ANOTHER_NAME: &str = "give it another name";

pub(crate) const A_CARD_HAS_COLUMNS: &str = "a card has columns 1 to 80, the first column first";

pub(crate) const WRITE_THE_FIELD_LINE: &str = "write the FIELD line, or correct the name";

pub(crate) const A_TOTAL_NEEDS_ITS_DIGITS: &str =
    "a total needs its digits, and only amounts have marks; CONTROL and INDICATE take texts";

pub(crate) const TAKE_ONE_OF_THEM_OUT: &str = "take one of them out";

pub(crate) const A_TOTAL_HAS_DIGITS: &str =
    "a total has as many digits as its field or more, 16 at most, and 15 with a sign column";

pub(crate) const A_HIGHER_TOTAL_NEEDS_DIGITS: &str = "a higher total needs at least as many digits";

pub(crate) const EVERY_SIGNED_AMOUNT_HAS_A_MARK: &str =
    "every amount with a sign column is printed with a mark, CR or -, and no other";

pub(crate) const THE_MACHINE_HAS_WHEELS: &str = "the machine has wheels 1 to 120: move the item";

pub(crate) const MOVE_ONE_OF_THEM: &str = "move one of them";

pub(crate) const AN_AMOUNT_SHARES_WHEELS: &str =
    "an amount shares wheels only with amounts of the same last wheel, decimals and mark: move one of them";

pub(crate) const WRITE_A_TAPE_LINE: &str =
    "write a TAPE line of a channel 2 to 11, its stops in rising order on the form";

pub(crate) const WRITE_COUPLED: &str =
    "write COUPLED where a total needs more than 8 positions, and only there";
