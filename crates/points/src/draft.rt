use crate::line::{By, Line};
use crate::problem::Problem;
use std::alloc::Global;
use std::fmt;
use tasks::blocks::Block;
use tasks::clock::Clock;
use tasks::model::Task;
use tasks::points::Point;
use tasks::timings::Timing;

#[derive(Clone, Copy, PartialEq, Eq, Debug)]
pub struct Ask {
    pub limit: Option<u32>,
    pub by: By,
}

impl fmt::Display for Ask {
    fn fmt<W: fmt::Write>(&self, f: &mut fmt::Formatter<W>) -> fmt::Result {
        match self.limit {
            Some(limit) => write!(f, "limit {limit}")?,
            None => write!(f, "no limit")?,
        }
        match self.by {
            By::Ticks => Ok(()),
            By::TicksCharge => write!(f, ", by ticks then charge"),
        }
    }
}

// What was read so far.
#[derive(Drop)]
pub struct Draft {
    clock: Option<Clock>,
    blocks: Vec<Block>,
    points: Vec<Point>,
    asks: Vec<Ask>,
}

impl Draft {
    pub(crate) fn new(heap: Global) -> Draft {
        Draft {
            clock: None,
            blocks: Vec::new(heap),
            points: Vec::new(heap),
            asks: Vec::new(heap),
        }
    }

    fn add_task(&mut self, code: u32, period: u32, deadline: u32) -> Result<(), Problem> {
        if self.clock.is_some() {
            return Err(Problem::TaskTwice);
        }
        let code = u8::try_from(code).map_err(|_| Problem::Code)?;
        Timing::new(period, deadline, 1).map_err(|_| Problem::Clock)?;
        self.clock = Some(Clock {
            code,
            period,
            deadline,
        });
        Ok(())
    }

    fn add_block(&mut self, cost: u32) -> Result<(), Problem> {
        if self.clock.is_none() {
            return Err(Problem::TaskFirst);
        }
        if self.blocks.len() != self.points.len() || !self.asks.is_empty() {
            return Err(Problem::BlockHere);
        }
        if self.blocks.len() >= 64 {
            return Err(Problem::Blocks);
        }
        if !(1..=1_000_000).contains(&cost) {
            return Err(Problem::Cost);
        }
        self.blocks.push(Block { cost })?;
        Ok(())
    }

    fn add_point(&mut self, ticks: u32, charge: u32) -> Result<(), Problem> {
        if self.blocks.len() <= self.points.len() || !self.asks.is_empty() {
            return Err(Problem::PointHere);
        }
        let charge = u16::try_from(charge).map_err(|_| Problem::Charge)?;
        let point = Point::new(ticks, charge).map_err(|_| Problem::Ticks)?;
        self.points.push(point)?;
        Ok(())
    }

    fn add_limit(&mut self, limit: Option<u32>, by: By) -> Result<(), Problem> {
        if self.blocks.len() <= self.points.len() {
            return Err(Problem::LimitHere);
        }
        self.asks.push(Ask { limit, by })?;
        Ok(())
    }

    pub(crate) fn add(&mut self, line: Line) -> Result<(), Problem> {
        match line {
            Line::Blank => Ok(()),
            Line::Task {
                code,
                period,
                deadline,
            } => self.add_task(code, period, deadline),
            Line::Block { cost } => self.add_block(cost),
            Line::Point { ticks, charge } => self.add_point(ticks, charge),
            Line::Limit { limit, by } => self.add_limit(limit, by),
        }
    }

    // The task and what is asked of it.
    pub(crate) fn finish(self) -> Result<(Task, Vec<Ask>), Problem> {
        let Draft {
            clock,
            blocks,
            points,
            asks,
        } = self;
        let clock = clock.ok_or(Problem::NoTask)?;
        if asks.is_empty() {
            return Err(Problem::NoLimit);
        }
        let task = Task::new(clock, blocks, points).map_err(|_| Problem::NoTask)?;
        Ok((task, asks))
    }
}
