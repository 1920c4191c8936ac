//! The same runs, in which requests that stand side by side are answered in one round.

use service::Message;
use std::alloc::{AllocError, Global};
use std::mem;
use whole_runs::{Answer, Step};

/// Steps, in which each row of requests is one round.
#[derive(Drop)]
struct Rows {
    alloc: Global,
    steps: Vec<Step>,
    messages: Vec<Message>,
}

impl Rows {
    // Ends the row, if there is one.
    fn end(&mut self) -> Result<(), AllocError> {
        if !self.messages.is_empty() {
            let messages = mem::replace(&mut self.messages, Vec::new(self.alloc));
            self.steps.push(Step::Round(messages))?;
        }
        Ok(())
    }

    fn push(&mut self, step: Step) -> Result<(), AllocError> {
        match step {
            Step::Request(bytes, moment) => {
                self.messages.push(Message { bytes, moment })?;
            }
            other => {
                self.end()?;
                self.steps.push(other)?;
            }
        }
        Ok(())
    }
}

/// These steps, in which each row of requests is one round.
pub fn rounds_of(alloc: Global, steps: Vec<Step>) -> Result<Vec<Step>, AllocError> {
    let mut rows = Rows {
        alloc,
        steps: Vec::new(alloc),
        messages: Vec::new(alloc),
    };
    for step in steps {
        rows.push(step)?;
    }
    rows.end()?;
    let Rows {
        alloc: _,
        steps,
        messages: _none,
    } = rows;
    Ok(steps)
}

/// These answers, in which each round's replies stand one by one.
pub fn one_by_one(alloc: Global, answers: Vec<Answer>) -> Result<Vec<Answer>, AllocError> {
    let mut each = Vec::new(alloc);
    for answer in answers {
        match answer {
            Answer::Round(Ok(replies)) => {
                for reply in replies {
                    each.push(Answer::Replied(reply))?;
                }
            }
            other => each.push(other)?,
        }
    }
    Ok(each)
}
