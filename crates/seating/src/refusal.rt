// Why a call is refused. The discriminant of each cause is the number of the refusal.
ghost use Rattle.std.specs.Prelude.{◌≡◌};
ghost use Rattle.seating.specs.declared.refused.Refused.TheVariants.{Making, Admitting, Withdrawing, Asking};
ghost use Rattle.seating.specs.Refusals.{number_of};

/// Why no rack is made.
#[derive(Clone, Copy, Debug, PartialEq, Eq)]
pub enum MakeRefusal {
    /// There are no processors, or more than 16.
    ProcessorCount = 1,
}

/// Why an admission is refused.
#[derive(Clone, Copy, Debug, PartialEq, Eq)]
pub enum AdmitRefusal {
    /// The sheet has fewer entries than the rack has processors.
    ShortSheet = 2,
    /// The task's number is 0.
    NumberZero = 3,
    /// The period is 0 or above 1,000,000.
    BadPeriod = 4,
    /// The work is 0 or more than the period allows.
    BadWork = 5,
    /// A task of this number is seated already.
    AlreadySeated = 6,
    /// All processors have 32 tasks.
    AllFull = 7,
    /// No processor would take the task: the sheet says why.
    NoTaker = 8,
}

/// Why a withdrawal is refused.
#[derive(Clone, Copy, Debug, PartialEq, Eq)]
pub enum WithdrawRefusal {
    /// No task of this number is seated.
    NotSeated = 9,
}

/// Why a question about one processor is refused.
#[derive(Clone, Copy, Debug, PartialEq, Eq)]
pub enum QuestionRefusal {
    /// The rack has no processor of this number.
    NoProcessor = 10,
}

// One line for each enum: a trait with a law for the four is no plainer, and callers would have to import it.
impl MakeRefusal {
    /// The number of the refusal.
    pub fn number(&self) -> u32
        ensures { result ≡ number_of (Making self.now) }
    {
        *self as u32
    }
}

impl AdmitRefusal {
    /// The number of the refusal.
    pub fn number(&self) -> u32
        ensures { result ≡ number_of (Admitting self.now) }
    {
        *self as u32
    }
}

impl WithdrawRefusal {
    /// The number of the refusal.
    pub fn number(&self) -> u32
        ensures { result ≡ number_of (Withdrawing self.now) }
    {
        *self as u32
    }
}

impl QuestionRefusal {
    /// The number of the refusal.
    pub fn number(&self) -> u32
        ensures { result ≡ number_of (Asking self.now) }
    {
        *self as u32
    }
}
