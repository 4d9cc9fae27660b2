//! The words that are told of lines that no form of a chart derives.

// A line behind END.
pub(crate) const END_STANDS_ON_LINE: &str = "END stands on line ";

pub(crate) const AND_ENDS_THE_CHART: &str = ", and ends the chart";

pub(crate) const TAKE_OUT_WHAT_STANDS_BEHIND_END: &[u8] =
    b"  take out what stands behind END, or write END behind it\n";

// Slips, first words that may be meant, and what each form takes.
pub(crate) const ONLY_THE_FIRST_LINE_IS_THE_TITLE: &str =
    "only the first line of a chart begins with CHART407";

pub(crate) const NO_LINE_HAS_THESE_WORDS_IN_THIS_ORDER: &str =
    "no line of a chart has these words in this order";

pub(crate) const NO_LINE_BEGINS_WITH_THIS_WORD: &str = "no line of a chart begins with this word";

pub(crate) const THERE_IS_A_TAB: &str = "there is a tab, and only spaces divide words";

pub(crate) const PUT_A_SPACE_IN_ITS_PLACE: &str = "put a space in its place";

pub(crate) const NO_COMMENTS: &str = "a chart has no comments";

pub(crate) const NO_QUOTATION_MARKS: &str =
    "literals stand in apostrophes, '..', and a chart has no quotation marks and no characters but ASCII";

pub(crate) const AN_APOSTROPHE_IS_NOT_CLOSED: &str =
    "an apostrophe is not closed; a literal stands between two, and has none within";

pub(crate) const ONLY_CAPITAL_LETTERS: &str = "a chart has only capital letters";

pub(crate) const THIS_CHARACTER_CANT_BE_PRINTED: &str =
    "this character can't be printed: a chart has capital letters, digits, blanks and & - / . $ * , % # @";

pub(crate) const MEANT_FIELD: &str = "did you mean FIELD?";

pub(crate) const MEANT_CONTROL: &str = "did you mean CONTROL?";

pub(crate) const MEANT_PRINT: &str = "did you mean PRINT?";

pub(crate) const MEANT_HEAD: &str = "did you mean HEAD?";

pub(crate) const MEANT_DETAIL: &str = "did you mean DETAIL?";

pub(crate) const MEANT_TOTAL: &str = "did you mean TOTAL?";

pub(crate) const MEANT_SPACE: &str = "did you mean SPACE?";

pub(crate) const MEANT_AFTER: &str = "did you mean AFTER?";

pub(crate) const MEANT_FORM: &str = "did you mean FORM?";

pub(crate) const MEANT_TAPE: &str = "did you mean TAPE?";

pub(crate) const MEANT_END: &str = "did you mean END?";

pub(crate) const A_LINE_BEGINS_WITH: &str =
    "a line begins with FIELD, CONTROL, PRINT, HEAD, DETAIL, TOTAL, SPACE, AFTER, FORM, TAPE or END";

pub(crate) const FIELD_TAKES: &str =
    "FIELD takes a name and columns: FIELD NAME TEXT 1 20, or FIELD AMT AMOUNT 21 26 2, with X 26 or NX 26 behind it for a sign column";

pub(crate) const CONTROL_TAKES: &str = "CONTROL takes a level 1 to 3 and a name: CONTROL 1 DEPT";

pub(crate) const PRINT_TAKES: &str = "PRINT takes one word: PRINT DETAIL or PRINT GROUP";

pub(crate) const HEAD_TAKES: &str =
    "HEAD takes a heading line 1 to 3, a wheel and a literal: HEAD 1 40 'SALES'";

pub(crate) const DETAIL_TAKES: &str =
    "DETAIL takes a wheel first: DETAIL 9 ITEM, DETAIL 9 'TEXT', and INDICATE 1 or MARK CR behind a name";

pub(crate) const TOTAL_TAKES: &str =
    "TOTAL takes a level 1 to 4 and a wheel first: TOTAL 1 40 AMT 7, with MARK CR and in version 2 COUPLED behind the digits, or TOTAL 1 9 'TEXT', or TOTAL 1 9 DEPT";

pub(crate) const SPACE_TAKES: &str =
    "SPACE takes a kind of line and 1 to 3: SPACE DETAIL 2 or SPACE TOTAL 1 2";

pub(crate) const AFTER_TAKES: &str =
    "AFTER takes a kind of line: AFTER TOTAL 1 PAGE or AFTER DETAIL SKIP 3";

pub(crate) const FORM_TAKES: &str =
    "FORM takes three numbers, lines, first line and overflow line: FORM 66 6 60";

pub(crate) const TAPE_TAKES: &str = "TAPE takes a channel and 1 to 10 stops: TAPE 3 10 20";

pub(crate) const END_STANDS_ALONE: &str = "END stands alone, and nothing behind it";

pub(crate) const THE_TITLE_STANDS_ALREADY: &str =
    "CHART407 stands on the first line already: take this line out";

// What stands around the word that no form has.
pub(crate) const A_SPACE_BELONGS_BEHIND_THIS: &str = "a space belongs behind this";

pub(crate) const VERSION_1_HAS_NO_COUPLED: &str = "version 1 has no COUPLED";

pub(crate) const BEHIND_THIS_BELONGS: &str = "behind this belongs ";

pub(crate) const HERE_BELONGS: &str = "here belongs ";

// What belongs at each stage of a form.
pub(crate) const A_NEW_NAME: &str = "a name, 1 to 8 capital letters and digits with a letter first";

pub(crate) const TEXT_OR_AMOUNT: &str = "TEXT or AMOUNT";

pub(crate) const THE_FIRST_COLUMN: &str =
    "the first column, a number of 1 to 3 digits without a leading zero";

pub(crate) const THE_LAST_COLUMN: &str =
    "the last column, a number of 1 to 3 digits without a leading zero";

pub(crate) const THE_NUMBER_OF_DECIMALS: &str = "the number of decimals, without a leading zero";

pub(crate) const X_OR_NX: &str = "X or NX with a sign column, or nothing";

pub(crate) const THE_SIGN_COLUMN: &str =
    "the sign column, a number of 1 to 3 digits without a leading zero";

pub(crate) const A_LEVEL_1_TO_3: &str = "a level, 1 to 3";

pub(crate) const THE_NAME_OF_A_FIELD: &str = "the name of a field, 1 to 8 letters and digits";

pub(crate) const DETAIL_OR_GROUP: &str = "DETAIL or GROUP";

pub(crate) const A_HEADING_LINE: &str = "a heading line, 1 to 3";

pub(crate) const A_WHEEL: &str = "a wheel, a number of 1 to 3 digits without a leading zero";

pub(crate) const A_LITERAL: &str = "a literal, 1 to 120 characters between apostrophes";

pub(crate) const A_NAME_OR_A_LITERAL: &str =
    "the name of a field, 1 to 8 letters and digits, or a literal, 1 to 120 characters between apostrophes";

pub(crate) const INDICATE_OR_MARK: &str = "INDICATE with a level, MARK with CR or -, or nothing";

pub(crate) const CREDIT_OR_MINUS: &str = "CR or -";

pub(crate) const A_LEVEL_1_TO_4: &str = "a level, 1 to 4";

pub(crate) const THE_NUMBER_OF_DIGITS: &str =
    "the number of digits of the total, without a leading zero, or nothing";

pub(crate) const MARK_OR_COUPLED: &str = "MARK with CR or -, in version 2 COUPLED, or nothing";

pub(crate) const MARK_OR_NOTHING: &str = "MARK with CR or -, or nothing";

pub(crate) const DETAIL_OR_TOTAL: &str = "DETAIL, or TOTAL with a level";

pub(crate) const A_SPACING: &str = "a spacing, 1 to 3";

pub(crate) const PAGE_OR_SKIP: &str = "PAGE, or SKIP with a channel";

pub(crate) const A_CHANNEL: &str = "a channel, a number of 1 to 3 digits without a leading zero";

pub(crate) const THE_NUMBER_OF_LINES: &str =
    "the number of lines of a page, 1 to 3 digits without a leading zero";

pub(crate) const THE_FIRST_LINE: &str =
    "the first line, a number of 1 to 3 digits without a leading zero";

pub(crate) const THE_OVERFLOW_LINE: &str =
    "the overflow line, a number of 1 to 3 digits without a leading zero";

pub(crate) const A_STOP: &str = "a stop, a number of 1 to 3 digits without a leading zero";

pub(crate) const A_FURTHER_STOP: &str =
    "a stop, a number of 1 to 3 digits without a leading zero, 10 stops at most, or nothing";

pub(crate) const THE_END_OF_THE_LINE: &str = "the end of the line";
