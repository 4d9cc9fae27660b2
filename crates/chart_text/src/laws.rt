//! Laws of the grammar: functions without a body, whose contracts are proved.

ghost use Rattle.std.specs.Prelude.{◌≡◌, ℕ, List};
ghost use Rattle.chart_lines.specs.ChartsWords.Chart.{Chart};
ghost use Rattle.chart_lines.specs.TokensWords.Frame.{IsEmptyLine, IsEndLine};
ghost use Rattle.chart_text.specs.ChartText.{IsFormLine, Reads};
ghost use Rattle.chart_lines.specs.ChartsWords.Literals.{HaveLiteralTexts};
ghost use Rattle.chart_text.specs.TextFaults.{HasTextFault};
ghost use Rattle.chart_lines.specs.declared.charts.chart.Version.{Version};
ghost use Rattle.chart_text.specs.declared.forms.Said.{Said};
ghost use Rattle.chart_text.specs.declared.fault.TextFault.{TextFault};

/// A line says one thing at most in a version: what one form says, or END, or nothing.
pub fn line_is_unambiguous()
    ensures one_statement { (version : Version) (line : List ℕ) (one other : Said)
        → IsFormLine version line one → IsFormLine version line other → one ≡ other }
    ensures end_is_no_form { (version : Version) (line : List ℕ) (said : Said) → IsEndLine line → ¬ IsFormLine version line said }
    ensures empty_is_no_form { (version : Version) (line : List ℕ) (said : Said) → IsEmptyLine line → ¬ IsFormLine version line said }
    ensures empty_is_no_end { (line : List ℕ) → IsEmptyLine line → ¬ IsEndLine line }
{}

/// One chart at most fits a text. A text whose text rules are broken has no chart, and one fault.
pub fn chart_text_is_unambiguous()
    ensures one_chart { (text : List ℕ) (one other : Chart) → Reads text one → Reads text other → one ≡ other }
    ensures no_chart { (text : List ℕ) (chart : Chart) (fault : TextFault) → HasTextFault text fault → ¬ Reads text chart }
    ensures one_fault { (text : List ℕ) (one other : TextFault) → HasTextFault text one → HasTextFault text other → one ≡ other }
{}

/// The literals of a chart that is read from a text have print characters and blanks alone.
pub fn read_literals_print()
    ensures { (text : List ℕ) (chart : Chart) → Reads text chart → HaveLiteralTexts chart.lines }
{}
