// The way from a message's root down to an item: at each level the position of the next item.
use crate::names::Position;
use crate::path::DEEPEST;
use std::fmt;

// A position in a message: there a sequence's elements and a map's pairs are counted, by rounds.
#[derive(Clone, Copy)]
pub struct Step {
    pub position: Position,
    pub round: u64,
}

impl fmt::Display for Step {
    fn fmt<W: fmt::Write>(&self, f: &mut fmt::Formatter<W>) -> fmt::Result {
        let Step { position, round } = *self;
        match position {
            Position::Element | Position::Key | Position::Value => write!(f, "{position} {round}"),
            _ => write!(f, "{position}"),
        }
    }
}

// A step for each level.
#[derive(Drop)]
pub struct Way {
    steps: [Step; DEEPEST],
}

impl Way {
    pub fn new() -> Way {
        let step = Step {
            position: Position::Nowhere,
            round: 0,
        };
        Way {
            steps: [step; DEEPEST],
        }
    }

    // Keeps a level's step.
    pub fn keep(&mut self, level: usize, step: Step) {
        if let Some(kept) = self.steps.get_mut(level) {
            *kept = step;
        }
    }

    // The first so many steps.
    fn front(&self, depth: usize) -> &[Step] {
        self.steps.get(..depth).unwrap_or(&self.steps)
    }
}

// The way's last step; the root has none.
#[derive(Clone, Copy)]
pub struct Last<'a>(pub &'a Way, pub usize);

impl<'a> fmt::Display for Last<'a> {
    fn fmt<W: fmt::Write>(&self, f: &mut fmt::Formatter<W>) -> fmt::Result {
        match self.0.front(self.1).last() {
            Some(step) => write!(f, "{step}"),
            None => write!(f, "root"),
        }
    }
}

// The whole way, from the root down.
#[derive(Clone, Copy)]
pub struct Whole<'a>(pub &'a Way, pub usize);

impl<'a> fmt::Display for Whole<'a> {
    fn fmt<W: fmt::Write>(&self, f: &mut fmt::Formatter<W>) -> fmt::Result {
        write!(f, "root")?;
        for step in self.0.front(self.1) {
            write!(f, ", {step}")?;
        }
        Ok(())
    }
}
