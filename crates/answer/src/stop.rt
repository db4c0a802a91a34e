// What ends a case early: a call that refuses, or a failure of the program.
use placement::Refused;
use std::alloc::AllocError;
use std::io;

#[derive(Drop)]
pub enum Stop {
    Face(faces::Refusal),
    Line(placement::Refusal),
    Failure(anyhow::Error),
}

// By hand: a refusal is no `std::error::Error`, from which a derive would start, and every other error is kept as a failure.
impl From<faces::Refusal> for Stop {
    fn from(refusal: faces::Refusal) -> Stop {
        Stop::Face(refusal)
    }
}

impl From<placement::Refusal> for Stop {
    fn from(refusal: placement::Refusal) -> Stop {
        Stop::Line(refusal)
    }
}

impl<L: Drop> From<Refused<L>> for Stop {
    fn from(refused: Refused<L>) -> Stop {
        Stop::Line(refused.refusal)
    }
}

impl From<anyhow::Error> for Stop {
    fn from(error: anyhow::Error) -> Stop {
        Stop::Failure(error)
    }
}

impl From<io::Error> for Stop {
    fn from(error: io::Error) -> Stop {
        Stop::Failure(error.into())
    }
}

impl From<AllocError> for Stop {
    fn from(error: AllocError) -> Stop {
        Stop::Failure(error.into())
    }
}
