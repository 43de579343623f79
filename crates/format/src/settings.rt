// A cue's settings: the coded choices, the opening values, and what each setting changes. A method takes the settings and hands back the
// changed ones.
ghost use Rattle.std.specs.Prelude.{◌≡◌, cond, eqb};
ghost use Rattle.format.specs.CueSettings.{opening_settings, settings_after, name_after, is_over, is_horizontal, no_span};

#[derive(Clone, Copy)]
pub enum Direction {
    Horizontal,
    // Vertical, growing left.
    Rl,
    // Vertical, growing right.
    Lr,
}

#[derive(Clone, Copy)]
pub enum Line {
    Auto,
    // A line number or a percentage, in millionths.
    At { negative: bool, millionths: u64 },
}

#[derive(Clone, Copy)]
pub enum LineAlign {
    Start,
    Center,
    End,
}

// The line, whether it snaps to lines (a percentage does not), and its alignment.
#[derive(Clone, Copy)]
pub struct LinePlace {
    pub line: Line,
    pub snap: bool,
    pub align: LineAlign,
}

#[derive(Clone, Copy)]
pub enum Position {
    Auto,
    // A percentage, in millionths.
    At(u64),
}

#[derive(Clone, Copy)]
pub enum PositionAlign {
    Auto,
    LineLeft,
    Center,
    LineRight,
}

#[derive(Clone, Copy)]
pub struct PositionPlace {
    pub position: Position,
    pub align: PositionAlign,
}

#[derive(Clone, Copy)]
pub enum Align {
    Start,
    Center,
    End,
    Left,
    Right,
}

// Bytes of a text, from one place up to another. Where there are none, both are 0.
#[derive(Clone, Copy)]
pub struct Span {
    pub from: usize,
    pub to: usize,
}

#[derive(Clone, Copy)]
pub struct Settings {
    pub vertical: Direction,
    pub line: LinePlace,
    pub position: PositionPlace,
    // A percentage, in millionths.
    pub size: u64,
    pub align: Align,
}

// What one setting changes.
#[derive(Clone, Copy)]
pub enum Change {
    Nothing,
    // A number above its limit, which is not kept.
    Over,
    // The region's name is the setting's value.
    Region,
    Vertical(Direction),
    Line(LinePlace),
    Position(PositionPlace),
    Size(u64),
    Align(Align),
}

impl Span {
    pub const NONE: Span = Span { from: 0, to: 0 };
}

// The opening values.
impl LinePlace {
    pub const OPENING: LinePlace = LinePlace {
        line: Line::Auto,
        snap: true,
        align: LineAlign::Start,
    };
}

impl PositionPlace {
    pub const OPENING: PositionPlace = PositionPlace {
        position: Position::Auto,
        align: PositionAlign::Auto,
    };
}

impl Settings {
    // 100 percent.
    pub const OPENING_SIZE: u64 = 100_000_000;

    pub fn opening() -> Settings
        ensures { result ≡ opening_settings }
    {
        Settings {
            vertical: Direction::Horizontal,
            line: LinePlace::OPENING,
            position: PositionPlace::OPENING,
            size: Settings::OPENING_SIZE,
            align: Align::Center,
        }
    }

    // The settings after a change.
    pub fn changed(self, change: Change) -> Settings
        ensures { result ≡ settings_after change self }
    {
        match change {
            Change::Nothing => self,
            Change::Over => self,
            Change::Region => self,
            Change::Vertical(vertical) => Settings { vertical, ..self },
            Change::Line(line) => Settings { line, ..self },
            Change::Position(position) => Settings { position, ..self },
            Change::Size(size) => Settings { size, ..self },
            Change::Align(align) => Settings { align, ..self },
        }
    }
}

impl Change {
    pub fn is_over(self) -> bool
        ensures { result ≡ is_over self }
    {
        matches!(self, Change::Over)
    }

    // A direction that is vertical clears the region.
    fn name_after_vertical(direction: Direction, name: Span) -> Span
        ensures { result ≡ cond (is_horizontal direction) name no_span }
    {
        match direction {
            Direction::Horizontal => name,
            Direction::Rl | Direction::Lr => Span::NONE,
        }
    }

    // A size other than 100 clears the region.
    fn name_after_size(size: u64, name: Span) -> Span
        ensures { result ≡ cond (eqb size 100_000_000) name no_span }
    {
        if size == Settings::OPENING_SIZE {
            return name;
        }
        Span::NONE
    }

    // The name of the region that is asked for after the change, `value` being where the setting's value stands.
    pub fn name_after(self, value: Span, name: Span) -> Span
        ensures { result ≡ name_after no_span self value name }
    {
        match self {
            Change::Region => value,
            Change::Vertical(direction) => Change::name_after_vertical(direction, name),
            // A line clears the region.
            Change::Line(_) => Span::NONE,
            Change::Size(size) => Change::name_after_size(size, name),
            _ => name,
        }
    }
}
