//! Charts that break no rule.

use crate::amounts::AmountColumns;
use crate::controls::Controls;
use crate::texts::TextColumns;
use chart_line_rules::field_rules::first_named;
use chart_line_rules::print_rules::Item;
use chart_lines::charts::{ControlLevel, Field, Line, Name, RawChart, Statement, Version};
use std::marker::Model;

/// A planning chart that breaks no rule.
///
/// Contracts see it as a raw chart: as its version, its lines in order, the numbers of those whose total bears the word COUPLED,
/// and the number of the line END.
pub struct Chart {
    raw: RawChart,
    fields: Vec<Field>,
    controls: Controls,
    texts: TextColumns,
    amounts: AmountColumns,
}

// By hand, so that a function that drops one calls this, and doesn't drop its parts one by one.
impl Drop for Chart {
    fn drop(self) {
        let Chart {
            raw: _raw,
            fields: _fields,
            controls: _controls,
            texts: _texts,
            amounts: _amounts,
        } = self;
    }
}

impl Model for Chart {
    ghost use Rattle.chart_lines.specs.ChartsWords.Chart.{Chart as Lines};
    ghost use Rattle.chart_rules.specs.HelperChecked.{IsChecked};

    ghost Value = { Lines };

    ghost view = { λ chart. chart.raw };

    ghost invariant = { λ chart. IsChecked chart.raw chart.fields.items chart.controls chart.texts chart.amounts };
}

impl Chart {
    ghost use Rattle.std.specs.Prelude.{◌≡◌, length};
    ghost use Rattle.chart_lines.specs.ChartsWords.Chart.{NumbersRise};
    ghost use Rattle.chart_lines.specs.ChartsWords.Levels.{control_number};
    ghost use Rattle.chart_line_rules.specs.FieldRules.Fields.{fields_of, field_named};
    ghost use Rattle.chart_line_rules.specs.PrintRules.Items.{item_of};
    ghost use Rattle.chart_rules.specs.Controls.{AreControlsOf, controls_of};
    ghost use Rattle.chart_rules.specs.HelperAmounts.{AreAmountsMarked};
    ghost use Rattle.chart_rules.specs.HelperTexts.{AreMarked};
    ghost use Rattle.chart_rules.specs.Rules.{IsLawful};

    /// The chart of lines that break no rule, of their fields, and of the control fields among these.
    pub(crate) fn of(raw: RawChart, fields: Vec<Field>, controls: Controls) -> Chart
        requires fields { fields.items ≡ fields_of raw.lines }
        requires lawful { IsLawful raw }
        requires controls { AreControlsOf raw.lines controls }
        ensures { result ≡ raw }
    {
        let texts = TextColumns::of(fields.as_slice());
        let amounts = AmountColumns::of(fields.as_slice());
        Chart {
            raw,
            fields,
            controls,
            texts,
            amounts,
        }
    }

    /// The version of its language.
    pub fn version(&self) -> Version
        ensures { result ≡ self.now.version }
    {
        self.raw.version()
    }

    /// The lines that say something, in order. They break no rule.
    pub fn lines(&self) -> &[Line]
        ensures value { result.now ≡ self.now.lines }
        ensures rising { NumbersRise self.now.lines self.now.end }
        ensures lawful { IsLawful self.now }
    {
        self.raw.lines()
    }

    /// The numbers of the lines whose total bears the word COUPLED.
    pub fn coupled(&self) -> &[u16]
        ensures { result.now ≡ self.now.coupled }
    {
        self.raw.coupled()
    }

    /// The number of the line END.
    pub fn end(&self) -> u16
        ensures { result ≡ self.now.end }
    {
        self.raw.end()
    }

    /// The fields, in the order of their lines.
    pub fn fields(&self) -> &[Field]
        ensures value { result.now ≡ fields_of self.now.lines }
        ensures lawful { IsLawful self.now }
    {
        self.fields.as_slice()
    }

    /// The field that a name stands for.
    pub fn field(&self, name: Name) -> Option<Field>
        ensures { result ≡ field_named self.now.lines name }
    {
        first_named(self.fields(), name)
    }

    /// The control fields of a level, in the order of their lines.
    pub fn control_fields(&self, level: ControlLevel) -> &[Field]
        ensures value { result.now ≡ controls_of self.now.lines (control_number level) }
        ensures lawful { IsLawful self.now }
    {
        self.controls.at(level)
    }

    /// The columns of its texts.
    pub(crate) fn texts(&self) -> &TextColumns
        ensures { AreMarked (fields_of self.now.lines) (length (fields_of self.now.lines)) result.now.masks result.now.end }
    {
        &self.texts
    }

    /// The columns of its amounts.
    pub(crate) fn amounts(&self) -> &AmountColumns
        ensures marked { AreAmountsMarked (fields_of self.now.lines) (length (fields_of self.now.lines)) result.now }
        ensures lawful { IsLawful self.now }
    {
        &self.amounts
    }

    /// What a line of the chart puts on a line of the report, if it is an item.
    pub fn item(&self, statement: &Statement) -> Option<Item>
        ensures { result ≡ item_of (fields_of self.now.lines) statement.now }
    {
        Item::of(self.fields(), statement)
    }
}
