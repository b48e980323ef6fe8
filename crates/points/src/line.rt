use crate::problem::Problem;

// By which measure a limit is asked.
#[derive(Clone, Copy, PartialEq, Eq, Debug)]
pub enum By {
    Ticks,
    TicksCharge,
}

// One line of the input.
#[derive(Clone, Copy, PartialEq, Eq, Debug)]
pub enum Line {
    Blank,
    Task {
        code: u32,
        period: u32,
        deadline: u32,
    },
    Block {
        cost: u32,
    },
    Point {
        ticks: u32,
        charge: u32,
    },
    Limit {
        limit: Option<u32>,
        by: By,
    },
}

fn number(word: Option<&str>) -> Result<u32, Problem> {
    let text = word.ok_or(Problem::MissingNumber)?;
    text.parse().map_err(|_| Problem::NotANumber)
}

fn nothing(word: Option<&str>) -> Result<(), Problem> {
    match word {
        Some(_) => Err(Problem::TooManyWords),
        None => Ok(()),
    }
}

fn limit(word: Option<&str>) -> Result<Option<u32>, Problem> {
    match word {
        Some("none") => Ok(None),
        _ => Ok(Some(number(word)?)),
    }
}

fn measure(word: Option<&str>) -> Result<By, Problem> {
    match word {
        None => Ok(By::Ticks),
        Some("charge") => Ok(By::TicksCharge),
        Some(_) => Err(Problem::TooManyWords),
    }
}

// What a line says: empty lines and those that begin with # say nothing.
pub(crate) fn read_line(text: &str) -> Result<Line, Problem> {
    let mut words = text.split_whitespace();
    let first = words.next();
    let a = words.next();
    let b = words.next();
    let c = words.next();
    let more = words.next();
    let Some(name) = first else {
        return Ok(Line::Blank);
    };
    if name.starts_with('#') {
        return Ok(Line::Blank);
    }
    nothing(more)?;
    match name {
        "task" => Ok(Line::Task {
            code: number(a)?,
            period: number(b)?,
            deadline: number(c)?,
        }),
        "block" => {
            nothing(b)?;
            Ok(Line::Block { cost: number(a)? })
        }
        "point" => {
            nothing(c)?;
            Ok(Line::Point {
                ticks: number(a)?,
                charge: number(b)?,
            })
        }
        "limit" => {
            nothing(c)?;
            Ok(Line::Limit {
                limit: limit(a)?,
                by: measure(b)?,
            })
        }
        _ => Err(Problem::UnknownWord),
    }
}
