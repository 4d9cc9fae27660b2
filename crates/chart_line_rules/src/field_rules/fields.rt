//! The fields of a chart, by their names.

ghost use Rattle.std.specs.Prelude.{◌≡◌, ◌++◌, [], ◌∷◌, length, IfOk, OnOk};
ghost use Rattle.chart_line_rules.specs.FieldRules.Fields as names;
ghost use Rattle.chart_line_rules.specs.FieldRules.Fields.{field_of, fields_of};
ghost use Rattle.chart_line_rules.specs.FieldRules.HelperIndex.{IsIndexOf};

use chart_lines::charts::{Field, Line, Name, Statement};
use indexmap::IndexMap;
use std::alloc::{AllocError, Global};
use std::marker::Model;

/// The fields of a chart in the order of their lines, and where the first field with each name stands among them.
///
/// Contracts see them as the list of the fields.
#[derive(Drop)]
pub struct Fields {
    in_order: Vec<Field>,
    first: IndexMap<Name, usize>,
}

impl Model for Fields {
    ghost use Rattle.std.specs.Prelude.{List};
    ghost use Rattle.chart_lines.specs.declared.charts.statement.Field.{Field};
    ghost use Rattle.chart_line_rules.specs.FieldRules.HelperIndex.{IsIndexOf};

    ghost Value = { List Field };

    ghost view = { λ fields. fields.in_order.items };

    ghost invariant = { λ fields. IsIndexOf fields.in_order.items fields.first };
}

impl Fields {
    ghost use Rattle.std.specs.Prelude.{◌≡◌, IfOk};
    ghost use Rattle.chart_line_rules.specs.FieldRules.Fields.{fields_of, first_named, first_place};

    /// The fields that the lines of a chart describe. It allocates, and fails only where memory is refused.
    pub fn of(alloc: Global, lines: &[Line]) -> Result<Fields, AllocError>
        ensures { IfOk result (λ fields. fields ≡ fields_of lines.now) }
    {
        let mut in_order = Vec::new(alloc);
        let mut first = IndexMap::new(alloc);
        for line in lines {
            if let Some(field) = described_by(&line.statement) {
                add_field(&mut in_order, &mut first, field)?;
            }
        }
        Ok(Fields { in_order, first })
    }

    /// The fields in the order of their lines, where nothing is looked up any more.
    pub fn into_fields(self) -> Vec<Field>
        ensures { result.items ≡ self }
    {
        let Fields { in_order, .. } = self;
        in_order
    }

    /// The first field with a name.
    pub fn get(&self, name: Name) -> Option<Field>
        ensures { result ≡ first_named self.now name }
    {
        let place = self.place_of(name)?;
        Some(self.in_order[place])
    }

    /// Where the first field with a name stands among the fields, from 0.
    pub(crate) fn place_of(&self, name: Name) -> Option<usize>
        ensures { result ≡ first_place self.now name }
    {
        self.first.get(&name).copied()
    }
}

/// The first of some fields with a name, by a search along them: [`Fields`] serve where many names are looked up.
pub fn first_named(fields: &[Field], name: Name) -> Option<Field>
    ensures { result ≡ names.first_named fields.now name }
{
    let field = fields.iter().find(|field| field.name.is(name))?;
    Some(*field)
}

/// The field that a line describes, if it is a FIELD line.
pub(crate) fn described_by(statement: &Statement) -> Option<Field>
    ensures { result ≡ field_of statement.now }
{
    match statement {
        Statement::Field(field) => Some(*field),
        _ => None,
    }
}

/// How many FIELD lines there are among some lines.
pub(crate) fn field_count(lines: &[Line]) -> usize
    ensures { result ≡ length (fields_of lines.now) }
{
    lines
        .iter()
        .filter_map(|line| described_by(&line.statement))
        .count()
}

/// Puts a field after the others, and into the index where it is the first of its name.
fn add_field(
    in_order: &mut Vec<Field>,
    first: &mut IndexMap<Name, usize>,
    field: Field,
) -> Result<(), AllocError>
    requires { IsIndexOf in_order.old.items first.old }
    ensures items { OnOk result (in_order.new.items ≡ in_order.old.items ++ field ∷ []) }
    ensures index { OnOk result (IsIndexOf in_order.new.items first.new) }
{
    let place = in_order.len();
    in_order.push(field)?;
    if first.contains_key(&field.name) {
        return Ok(());
    }
    first.insert(field.name, place)?;
    Ok(())
}
