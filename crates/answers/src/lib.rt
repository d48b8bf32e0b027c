// How each operation ends, and document 01's number and values for each end. An answer is a Result; what it says to a caller who
// knows numbers alone, the number and the values that go with it, stands beside it as a struct that C can read.
#![tactic(auto)]

ghost use Rattle.std.specs.Prelude.{◌≡◌};
ghost use Rattle.answers.specs.Answers.{step_number, number_of, no_place, place_at, train_said, search_said, check_said, staged_why, staged};
ghost use Rattle.answers.specs.declared.Untrained.TheVariants.{Refused};

// Where a centre coordinate came out not finite.
#[derive(Clone, Copy, Debug, PartialEq, Eq)]
pub enum Step {
    Start,
    Averaging,
    Splitting,
}

// Why a k-means ends before its last epoch: the draws ended, or a centre coordinate came out not finite. Else it answers with the number
// of draws used so far.
#[derive(Clone, Copy, Debug, PartialEq, Eq)]
pub enum Unclustered {
    OutOfDraws { epoch: u32, center: u32 },
    NotFinite { step: Step, epoch: u32, center: u32 },
}

// Which k-means of a training: the coarse one, or that of a sub-space of a cell (plain: cell 0).
#[derive(Clone, Copy, Debug, PartialEq, Eq)]
pub enum Stage {
    Coarse,
    Sub { cell: u32, sub: u32 },
}

// Why an entry point gives no answer, but for 8 and 9: the first of its tests that refuses.
#[derive(Clone, Copy, Debug, PartialEq, Eq)]
pub enum Refusal {
    // 1: D, n_sub, sub_bits, the cells, the probes or the epochs
    NumbersOutOfBounds,
    // 2
    NoRows,
    // 3
    TooManyRows,
    // 4: a lent buffer
    WrongLength,
    // 5
    TooManyAsked,
    // 6: a coordinate of a row or of the query
    NotFinite,
    // 7
    DrawOutOfRange,
    // 10: starts, members or codes
    Damaged,
    // 11: a coarse distance, an entry of the table or a sum
    DistanceNotFinite,
}

impl Refusal {
    // Document 01's number of a refusal.
    pub fn number(self) -> u32
        ensures { result ≡ number_of self }
    {
        match self {
            Refusal::NumbersOutOfBounds => 1,
            Refusal::NoRows => 2,
            Refusal::TooManyRows => 3,
            Refusal::WrongLength => 4,
            Refusal::TooManyAsked => 5,
            Refusal::NotFinite => 6,
            Refusal::DrawOutOfRange => 7,
            Refusal::Damaged => 10,
            Refusal::DistanceNotFinite => 11,
        }
    }
}

// Why a training gives no index: refusal 1 to 7, or one of its k-means that stopped, which is 8 or 9. Else it answers with the draws used.
#[derive(Clone, Copy, Debug, PartialEq, Eq)]
pub enum Untrained {
    Refused(Refusal),
    OutOfDraws {
        stage: Stage,
        epoch: u32,
        center: u32,
    },
    NotFinite {
        stage: Stage,
        step: Step,
        epoch: u32,
        center: u32,
    },
}

impl From<Refusal> for Untrained {
    ghost from_gives = { λ r u. u ≡ Refused r };

    fn from(r: Refusal) -> Untrained {
        Untrained::Refused(r)
    }
}

impl Unclustered {
    // The same of a training, with the stage of the k-means.
    fn at_stage(self, stage: Stage) -> Untrained
        ensures { result ≡ staged_why stage self }
    {
        match self {
            Unclustered::OutOfDraws { epoch, center } => Untrained::OutOfDraws {
                stage,
                epoch,
                center,
            },
            Unclustered::NotFinite {
                step,
                epoch,
                center,
            } => Untrained::NotFinite {
                stage,
                step,
                epoch,
                center,
            },
        }
    }
}

// What a search answers: the places filled, and the number of candidates.
#[derive(Clone, Copy, Debug, PartialEq, Eq)]
pub struct Found {
    pub found: usize,
    pub scored: usize,
}

// Where a training was refused with 8 or 9; all zero in every other answer.
#[repr(C)]
#[derive(Clone, Copy, Debug, PartialEq, Eq)]
pub struct Place {
    pub stage: u32,
    pub cell: u32,
    pub sub: u32,
    pub step: u32,
    pub epoch: u32,
    pub center: u32,
}

// What a training says: its number, the place of an 8 or 9, and the draws used by a training that succeeds.
#[repr(C)]
#[derive(Clone, Copy, Debug, PartialEq, Eq)]
pub struct TrainAnswer {
    pub number: u32,
    pub place: Place,
    pub used: usize,
}

// What a search says: its number, the places filled, and the number of candidates.
#[repr(C)]
#[derive(Clone, Copy, Debug, PartialEq, Eq)]
pub struct SearchAnswer {
    pub number: u32,
    pub found: usize,
    pub scored: usize,
}

// Start, averaging or splitting, as 0, 1, 2 for C.
fn step_number(step: Step) -> u32
    ensures { result ≡ step_number step }
{
    match step {
        Step::Start => 0,
        Step::Averaging => 1,
        Step::Splitting => 2,
    }
}

// The place of an answer that names none.
fn no_place() -> Place
    ensures { result ≡ no_place }
{
    Place {
        stage: 0,
        cell: 0,
        sub: 0,
        step: 0,
        epoch: 0,
        center: 0,
    }
}

// The place of an 8 or 9: the coarse k-means, or that of a sub-space of a cell.
fn place_at(stage: Stage, step: Step, epoch: u32, center: u32) -> Place
    ensures { result ≡ place_at stage step epoch center }
{
    let step = step_number(step);
    match stage {
        Stage::Coarse => Place {
            stage: 0,
            cell: 0,
            sub: 0,
            step,
            epoch,
            center,
        },
        Stage::Sub { cell, sub } => Place {
            stage: 1,
            cell,
            sub,
            step,
            epoch,
            center,
        },
    }
}

// What a training's answer says. Only a split calls for a draw, so an 8 is met while splitting.
pub fn train_answer(t: Result<usize, Untrained>) -> TrainAnswer
    ensures { result ≡ train_said t }
{
    match t {
        Ok(used) => TrainAnswer {
            number: 0,
            place: no_place(),
            used,
        },
        Err(Untrained::Refused(refusal)) => TrainAnswer {
            number: refusal.number(),
            place: no_place(),
            used: 0,
        },
        Err(
            Untrained::OutOfDraws {
                stage,
                epoch,
                center,
            },
        ) => TrainAnswer {
            number: 8,
            place: place_at(stage, Step::Splitting, epoch, center),
            used: 0,
        },
        Err(
            Untrained::NotFinite {
                stage,
                step,
                epoch,
                center,
            },
        ) => TrainAnswer {
            number: 9,
            place: place_at(stage, step, epoch, center),
            used: 0,
        },
    }
}

// What a search's answer says.
pub fn search_answer(s: Result<Found, Refusal>) -> SearchAnswer
    ensures { result ≡ search_said s }
{
    match s {
        Ok(Found { found, scored }) => SearchAnswer {
            number: 0,
            found,
            scored,
        },
        Err(refusal) => SearchAnswer {
            number: refusal.number(),
            found: 0,
            scored: 0,
        },
    }
}

// What the whole check's answer says: its number.
pub fn check_answer(c: Result<(), Refusal>) -> u32
    ensures { result ≡ check_said c }
{
    match c {
        Ok(()) => 0,
        Err(refusal) => refusal.number(),
    }
}

// The answer of one k-means of a training, with its stage.
pub fn at_stage(stage: Stage, c: Result<usize, Unclustered>) -> Result<usize, Untrained>
    ensures { result ≡ staged stage c }
{
    c.map_err(|why| why.at_stage(stage))
}
