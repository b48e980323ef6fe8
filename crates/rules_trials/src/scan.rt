// The exact rule and the deadline rule without any thought: each moment from 1 on, and each task at each moment.
use rules::answer::Answer;
use tasks::timings::Timing;

// The slack of some tasks at a moment from 1 on. A task is released once at the start and once for each whole period before.
pub fn slack(tasks: &[Timing], moment: u32) -> i64 {
    tasks.iter().fold(i64::from(moment), |left, task| {
        let releases = moment.saturating_sub(1) / task.period().max(1);
        let load = i64::from(task.cost()).saturating_mul(i64::from(releases).saturating_add(1));
        left.saturating_sub(load)
    })
}

// The greatest slack from 1 to the deadline, and the first moment that has it.
pub fn greatest(tasks: &[Timing], deadline: u32) -> Answer {
    let told = |moment| Answer {
        tolerance: slack(tasks, moment),
        moment,
    };
    (2..=deadline).map(told).fold(told(1), |best, here| {
        if best.tolerance < here.tolerance {
            here
        } else {
            best
        }
    })
}
