//! The draft of a chart: what its lines will say, with fields by their place in a list, before they have names.

use chart_lines::charts::{BodyLine, ControlLevel, FieldKind, HeadingLine, Level, Mark};
use std::alloc::{AllocError, Global};

/// A field of the cards.
#[derive(Clone, Copy, PartialEq, Eq)]
pub struct DraftField {
    /// Its first column.
    pub first: u8,
    /// Its last column.
    pub last: u8,
    /// What its columns hold.
    pub kind: FieldKind,
    /// The pilot that tells the sign of an amount.
    pub pilot: Option<u8>,
}

impl DraftField {
    ghost use Rattle.std.specs.Prelude.{◌≡◌, true};

    // Whether it is like another: in the same columns, of the same kind and with the same pilot.
    fn is_like(self, other: DraftField) -> bool
        ensures { result ≡ true → (self.first ≡ other.first) × (self.last ≡ other.last) }
    {
        self.first == other.first
            && self.last == other.last
            && self.kind == other.kind
            && self.pilot == other.pilot
    }
}

/// A printed line of the report.
#[derive(Clone, Copy, PartialEq, Eq)]
pub enum PrintedLine {
    /// A heading line.
    Heading(HeadingLine),
    /// A line below the headings.
    Body(BodyLine),
}

/// All printed lines, in the order of a chart.
pub(crate) const PRINTED_LINES: [PrintedLine; 8] = [
    PrintedLine::Heading(HeadingLine::First),
    PrintedLine::Heading(HeadingLine::Second),
    PrintedLine::Heading(HeadingLine::Third),
    PrintedLine::Body(BodyLine::Detail),
    PrintedLine::Body(BodyLine::Total(Level::Minor)),
    PrintedLine::Body(BodyLine::Total(Level::Intermediate)),
    PrintedLine::Body(BodyLine::Total(Level::Major)),
    PrintedLine::Body(BodyLine::Total(Level::Final)),
];

impl PrintedLine {
    /// The number of its emitter, 1 to 8.
    pub(crate) fn emitter(self) -> u8 {
        match self {
            PrintedLine::Heading(heading) => heading.number(),
            PrintedLine::Body(BodyLine::Detail) => 4,
            PrintedLine::Body(BodyLine::Total(level)) => 4 + level.number(),
        }
    }
}

/// What an item puts on its line.
#[derive(Drop)]
pub enum Said {
    /// A text, the field at this place of the list; on the line of a card maybe only on the first card of each group of a level.
    Text {
        /// The place of the field.
        field: usize,
        /// The level.
        indicated: Option<ControlLevel>,
    },
    /// An amount or its total.
    Amount {
        /// The place of the field.
        field: usize,
        /// How many digits it has.
        digits: u8,
        /// Its mark.
        mark: Option<Mark>,
    },
    /// Characters.
    Literal {
        /// The characters.
        characters: String,
    },
}

impl Said {
    ghost use Rattle.std.specs.Prelude.{◌≡◌};
    ghost use Rattle.readback_panels.specs.Lines.{field_of};

    /// The place of the field of which it puts something on the line, if it does.
    pub fn field(&self) -> Option<usize>
        ensures { result ≡ field_of self.now }
    {
        match self {
            Said::Text { field, .. } | Said::Amount { field, .. } => Some(*field),
            Said::Literal { .. } => None,
        }
    }
}

/// An item of a printed line.
#[derive(Drop)]
pub struct Item {
    /// The line on which it stands.
    pub line: PrintedLine,
    /// Its first wheel.
    pub first: u8,
    /// Its last wheel.
    pub last: u8,
    /// What it says.
    pub said: Said,
}

impl Item {
    /// Whether it stands on a wheel.
    pub(crate) fn has(&self, wheel: u8) -> bool {
        self.first <= wheel && wheel <= self.last
    }

    /// Whether it puts a field on a line.
    fn puts(&self, line: PrintedLine, field: usize) -> bool {
        self.line == line && self.said.field() == Some(field)
    }
}

/// A control field.
#[derive(Clone, Copy)]
pub struct Control {
    /// The level that it controls.
    pub level: ControlLevel,
    /// The place of the field.
    pub field: usize,
}

/// The draft of a chart, as far as its fields, its control fields and the items of its lines go.
pub struct Draft {
    /// Its fields, in the order in which they were read.
    pub fields: Vec<DraftField>,
    /// Its control fields.
    pub controls: Vec<Control>,
    /// The items of its lines.
    pub items: Vec<Item>,
}

// By hand, so that a function that drops one calls this, and doesn't drop its parts one by one.
impl Drop for Draft {
    fn drop(self) {
        let Draft {
            fields: _fields,
            controls: _controls,
            items: _items,
        } = self;
    }
}

impl Draft {
    ghost use Rattle.std.specs.Prelude.{◌≡◌, ◌++◌, ◌∷◌, [], length, IfOk, OnOk};
    ghost use Rattle.readback_panels.specs.Chains.{GainsField};
    ghost use Rattle.readback_panels.specs.Shown.{HasColumns, KeepsFields};

    /// A draft in which nothing stands.
    pub(crate) fn new(alloc: Global) -> Draft
        ensures { result.items.items ≡ [] }
    {
        Draft {
            fields: Vec::new(alloc),
            controls: Vec::new(alloc),
            items: Vec::new(alloc),
        }
    }

    /// Adds a field, and answers its place.
    #[tactic(auto, using(crate::proofs::ColumnsShown::field_pushed, crate::proofs::ColumnsShown::fields_more))]
    pub(crate) fn add_field(&mut self, field: DraftField) -> Result<usize, AllocError>
        ensures gained { OnOk result (GainsField field self.old self.new) }
        ensures place { IfOk result (λ place. place ≡ length self.old.fields.items) }
        ensures columns { IfOk result (λ place. HasColumns self.new place field.first field.last) }
        ensures kept { OnOk result (KeepsFields self.old self.new) }
        ensures items { self.new.items ≡ self.old.items }
    {
        let place = self.fields.len();
        self.fields.push(field)?;
        Ok(place)
    }

    /// Whether a field stands on a line.
    pub(crate) fn is_on(&self, line: PrintedLine, field: usize) -> bool {
        self.items.iter().any(|item| item.puts(line, field))
    }

    /// Whether a field controls a level.
    pub(crate) fn has_control(&self, level: ControlLevel, field: usize) -> bool {
        self.controls
            .iter()
            .any(|control| control.level == level && control.field == field)
    }

    /// Whether an item of a line stands on a wheel.
    pub(crate) fn is_taken(&self, line: PrintedLine, wheel: u8) -> bool {
        self.items
            .iter()
            .any(|item| item.line == line && item.has(wheel))
    }

    /// Whether an amount stands on a wheel, on any line.
    pub(crate) fn has_amount(&self, wheel: u8) -> bool {
        self.items.iter().any(|item| matches!(item.said, Said::Amount { .. }) && item.has(wheel))
    }

    /// Whether an item stands on a line below the headings.
    pub(crate) fn has_body_item(&self) -> bool {
        self.items
            .iter()
            .any(|item| matches!(item.line, PrintedLine::Body(_)))
    }

    /// The place of a field like this one that stands not yet on the line of a card, if there is one, else of a new one.
    #[tactic(auto, using(crate::proofs::ColumnsShown::place_found))]
    pub(crate) fn card_field(&mut self, field: DraftField) -> Result<usize, AllocError>
        ensures columns { IfOk result (λ place. HasColumns self.new place field.first field.last) }
        ensures kept { OnOk result (KeepsFields self.old self.new) }
        ensures items { self.new.items ≡ self.old.items }
    {
        let card = PrintedLine::Body(BodyLine::Detail);
        for place in 0..self.fields.len() {
            if self.fields[place].is_like(field) && !self.is_on(card, place) {
                return Ok(place);
            }
        }
        self.add_field(field)
    }

    /// Adds an item to a line.
    pub(crate) fn put(&mut self, item: Item) -> Result<(), AllocError>
        ensures gained { OnOk result (self.new.items.items ≡ self.old.items.items ++ item ∷ []) }
        ensures fields { self.new.fields ≡ self.old.fields }
    {
        self.items.push(item)?;
        Ok(())
    }
}
