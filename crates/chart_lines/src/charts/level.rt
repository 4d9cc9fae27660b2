//! The levels of totals, and those that control fields have.

/// The level of a total line, the lowest first. The final one is that of the whole deck.
#[derive(Clone, Copy, Debug, PartialEq, Eq)]
pub enum Level {
    /// 1.
    Minor,
    /// 2.
    Intermediate,
    /// 3.
    Major,
    /// 4, the whole deck.
    Final,
}

impl Level {
    ghost use Rattle.std.specs.Prelude.{◌≡◌};
    ghost use Rattle.chart_lines.specs.ChartsWords.Levels.{control_level, level_number, level_with};

    /// Its number, 1 to 4.
    pub fn number(self) -> u8
        ensures { result ≡ level_number self }
    {
        match self {
            Level::Minor => 1,
            Level::Intermediate => 2,
            Level::Major => 3,
            Level::Final => 4,
        }
    }

    /// The control level that it is, or `None` for the final one.
    pub fn control(self) -> Option<ControlLevel>
        ensures { result ≡ control_level self }
    {
        match self {
            Level::Minor => Some(ControlLevel::Minor),
            Level::Intermediate => Some(ControlLevel::Intermediate),
            Level::Major => Some(ControlLevel::Major),
            Level::Final => None,
        }
    }

    /// The level with a number, or `None` where it is not 1 to 4.
    pub fn with_number(number: u16) -> Option<Level>
        ensures { result ≡ level_with number }
    {
        match number {
            1 => Some(Level::Minor),
            2 => Some(Level::Intermediate),
            3 => Some(Level::Major),
            4 => Some(Level::Final),
            _ => None,
        }
    }
}

/// The level of a control field, the lowest first.
#[derive(Clone, Copy, Debug, PartialEq, Eq)]
pub enum ControlLevel {
    /// 1.
    Minor,
    /// 2.
    Intermediate,
    /// 3.
    Major,
}

impl ControlLevel {
    ghost use Rattle.std.specs.Prelude.{◌≡◌};
    ghost use Rattle.chart_lines.specs.ChartsWords.Levels.{control_number, control_with};

    /// Its number, 1 to 3.
    pub fn number(self) -> u8
        ensures { result ≡ control_number self }
    {
        match self {
            ControlLevel::Minor => 1,
            ControlLevel::Intermediate => 2,
            ControlLevel::Major => 3,
        }
    }

    /// The control level with a number, or `None` where it is not 1 to 3.
    pub fn with_number(number: u16) -> Option<ControlLevel>
        ensures { result ≡ control_with number }
    {
        match number {
            1 => Some(ControlLevel::Minor),
            2 => Some(ControlLevel::Intermediate),
            3 => Some(ControlLevel::Major),
            _ => None,
        }
    }
}
