//! The control fields of a chart, level by level.

ghost use Rattle.std.specs.Prelude.{◌≡◌, IfOk, List};
ghost use Rattle.chart_lines.specs.declared.charts.chart.Line.{Line};
ghost use Rattle.chart_lines.specs.ChartsWords.Levels.{control_number};
ghost use Rattle.chart_line_rules.specs.FieldRules.Fields.{fields_of};
ghost use Rattle.chart_rules.specs.Controls.{control_on, controls_of};

use chart_line_rules::field_rules::Fields;
use chart_lines::charts::{ControlLevel, Field, Line, Statement};
use std::alloc::{AllocError, Global};

/// The control fields of a chart, those of each level in the order of their lines. They are looked up once, since each two cards of a
/// deck are compared by them.
#[derive(Drop)]
pub(crate) struct Controls {
    minor: Vec<Field>,
    intermediate: Vec<Field>,
    major: Vec<Field>,
}

impl Controls {
    ghost use Rattle.std.specs.Prelude.{◌≡◌, IfOk};
    ghost use Rattle.chart_line_rules.specs.FieldRules.Fields.{fields_of};
    ghost use Rattle.chart_rules.specs.Controls.{AreControlsOf, kept_for};

    /// The control fields that some lines name. It allocates, and fails only where memory is refused.
    pub(crate) fn of(alloc: Global, lines: &[Line], fields: &Fields) -> Result<Controls, AllocError>
        requires { fields.now ≡ fields_of lines.now }
        ensures { IfOk result (AreControlsOf lines.now) }
    {
        Ok(Controls {
            minor: controls_at(alloc, lines, fields, ControlLevel::Minor)?,
            intermediate: controls_at(alloc, lines, fields, ControlLevel::Intermediate)?,
            major: controls_at(alloc, lines, fields, ControlLevel::Major)?,
        })
    }

    /// Those of a level.
    pub(crate) fn at(&self, level: ControlLevel) -> &[Field]
        ensures { result.now ≡ kept_for self.now level }
    {
        match level {
            ControlLevel::Minor => self.minor.as_slice(),
            ControlLevel::Intermediate => self.intermediate.as_slice(),
            ControlLevel::Major => self.major.as_slice(),
        }
    }
}

// The control fields of a level, in the order of the lines.
fn controls_at(
    alloc: Global,
    lines: &[Line],
    fields: &Fields,
    level: ControlLevel,
) -> Result<Vec<Field>, AllocError>
    requires { fields.now ≡ fields_of lines.now }
    ensures { IfOk result (λ found. found.items ≡ controls_of lines.now (control_number level)) }
{
    let mut found = Vec::new(alloc);
    for line in lines {
        if let Some(field) = control_on(fields, level, &line.statement) {
            found.push(field)?;
        }
    }
    Ok(found)
}

// The control field that a line names for a level, if it does.
fn control_on(fields: &Fields, level: ControlLevel, statement: &Statement) -> Option<Field>
    ensures { (lines : List Line) → fields.now ≡ fields_of lines → result ≡ control_on lines (control_number level) statement.now }
{
    match statement {
        Statement::Control { level: its, name } if its.number() == level.number() => {
            fields.get(*name)
        }
        _ => None,
    }
}
