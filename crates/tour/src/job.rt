// The small sample job: after a reboot the order of the sensors is checked before anything is published.
//
// Steps: 0 reboot, 1 order check, 2 publish. Roles: 0 climber, 1 desk. Person 0 is a climber, person 1 sits at the desk.
use moves::Marking;
use rules::{ALLOWS, CONDITIONS, EXCLUDES, HOLDS, INCLUDES, Job, LABELS, RESPONSES, WORDS};

pub const REBOOT: [u8; 3] = [0, 0, 0];

pub const CHECK: [u8; 3] = [0, 1, 0];

pub const PUBLISH: [u8; 3] = [1, 2, 1];

pub const DAY: [u8; 9] = [0, 0, 0, 0, 1, 0, 1, 2, 1];

pub const START: Marking = Marking {
    done: 0,
    due: 0,
    included: 7,
};

pub fn job() -> Job {
    let mut g = [0u64; WORDS];
    g[0] = 3;
    g[1] = 2;
    g[2] = 2;
    g[3] = 3;
    g[HOLDS] = 1;
    g[HOLDS + 1] = 2;
    g[ALLOWS] = 3;
    g[ALLOWS + 1] = 1;
    g[ALLOWS + 2] = 2;
    g[LABELS + 1] = 1;
    g[LABELS + 2] = 2;
    // Publishing waits for the check; a reboot makes the check due and shuts publishing out, and the check lets it in again.
    g[CONDITIONS + 2] = 2;
    g[RESPONSES] = 2;
    g[INCLUDES + 1] = 4;
    g[EXCLUDES] = 4;
    g
}

// The same job, in which the order check has no role.
pub fn rewritten() -> Job {
    let mut g = job();
    g[ALLOWS + 1] = 0;
    g
}

// Steps and roles stay numbers: the journals beside hold them so, and are folded as they stand.
pub fn step_name(s: u8) -> &'static str {
    match s {
        0 => "reboot",
        1 => "order check",
        _ => "publish",
    }
}

pub fn role_name(r: u8) -> &'static str {
    match r {
        0 => "climber",
        _ => "desk",
    }
}
