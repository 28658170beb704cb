// The kinds of record and the length of each kind's body (document 01, "The task file"; 02, requests 1 and 6).
ghost use Rattle.std.specs.Prelude.{◌≡◌};
ghost use Rattle.taskformat.specs.Format.{position_of, is_cell_kind, is_fact_kind, body_length};
ghost use Rattle.records.specs.Kinds.{kind_number, Decodes};

// Run: a further run.
#[derive(Clone, Copy, PartialEq, Eq, Debug)]
pub enum Kind {
    Sizes = 1,
    Start = 2,
    Goal = 3,
    Need = 4,
    Add = 5,
    Delete = 6,
    Step = 7,
    End = 8,
    Run = 9,
    Lock = 10,
}

impl Kind {
    // The kind that a byte stands for, if any.
    #[tactic(auto, unfolding(taskformat::specs::Format::is_kind))]
    pub fn of(byte: u8) -> Option<Kind>
        ensures { Decodes byte result }
    {
        match byte {
            1 => Some(Kind::Sizes),
            2 => Some(Kind::Start),
            3 => Some(Kind::Goal),
            4 => Some(Kind::Need),
            5 => Some(Kind::Add),
            6 => Some(Kind::Delete),
            7 => Some(Kind::Step),
            8 => Some(Kind::End),
            9 => Some(Kind::Run),
            10 => Some(Kind::Lock),
            _ => None,
        }
    }

    pub fn number(self) -> u8
        ensures { result ≡ kind_number self }
    {
        self as u8
    }

    // The position that a kind has in a file: 01 numbers the kinds as they come, a further run begins the order anew right after
    // the sizes, and a lock stands between deletes and steps. Position 0 is that before the first record.
    #[tactic(auto, unfolding(taskformat::specs::Format::position_of, taskformat::specs::Format::first_place, taskformat::specs::Format::file_order))]
    pub fn position(self) -> usize
        ensures { result ≡ position_of (kind_number self) }
    {
        match self {
            Kind::Sizes => 1,
            Kind::Run => 2,
            Kind::Start => 3,
            Kind::Goal => 4,
            Kind::Need => 5,
            Kind::Add => 6,
            Kind::Delete => 7,
            Kind::Lock => 8,
            Kind::Step => 9,
            Kind::End => 10,
        }
    }

    // The body is an action and a fact.
    #[tactic(auto, unfolding(taskformat::specs::Format::is_cell_kind))]
    pub fn is_cell(self) -> bool
        ensures { result ≡ is_cell_kind (kind_number self) }
    {
        matches!(self, Kind::Need | Kind::Add | Kind::Delete | Kind::Lock)
    }

    // The body is a fact.
    #[tactic(auto, unfolding(taskformat::specs::Format::is_fact_kind))]
    pub fn is_fact(self) -> bool
        ensures { result ≡ is_fact_kind (kind_number self) }
    {
        matches!(self, Kind::Start | Kind::Goal)
    }

    #[tactic(auto, unfolding(taskformat::specs::Format::body_length, taskformat::specs::Format::is_cell_kind))]
    pub fn body_length(self) -> usize
        ensures { result ≡ body_length (kind_number self) }
    {
        match self {
            Kind::Sizes => 3,
            Kind::Need | Kind::Add | Kind::Delete | Kind::Lock => 2,
            Kind::Start | Kind::Goal | Kind::Step => 1,
            Kind::End | Kind::Run => 0,
        }
    }
}
