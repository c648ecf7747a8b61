// The paper's Fig. 3(a) and 3(b). The figures are pictures, so each arrow is taken from the text of section 3 that is quoted above it.
//
// Steps: 0 sign, 1 give medicine, 2 prescribe medicine, 3 don't trust. Roles: 0 doctor, 1 nurse. Person 0 is a doctor, person 1 a nurse.
use moves::Marking;
use rules::{ALLOWS, CONDITIONS, EXCLUDES, HOLDS, INCLUDES, Job, LABELS, RESPONSES, WORDS};

// Nothing done, nothing due, every step included.
pub const START_A: Marking = Marking {
    done: 0,
    due: 0,
    included: 7,
};

pub const START_B: Marking = Marking {
    done: 0,
    due: 0,
    included: 15,
};

// Fig. 3(a).
pub fn prescribe() -> Job {
    let mut g = [0u64; WORDS];
    g[0] = 3;
    g[1] = 2;
    g[2] = 2;
    g[3] = 3;
    // "D for Doctor and N for Nurse": the doctor prescribes and signs, the nurse gives.
    g[HOLDS] = 1;
    g[HOLDS + 1] = 2;
    g[ALLOWS] = 1;
    g[ALLOWS + 1] = 2;
    g[ALLOWS + 2] = 1;
    // Each event has an action of its own.
    g[LABELS + 1] = 1;
    g[LABELS + 2] = 2;
    // Prescribe medicine is a condition of sign.
    g[CONDITIONS] = 4;
    // Sign and give medicine are responses of prescribe medicine.
    g[RESPONSES + 2] = 3;
    // Sign is a condition of give medicine.
    g[CONDITIONS + 1] = 1;
    g
}

// Fig. 3(b): Fig. 3(a) with don't trust.
pub fn check() -> Job {
    let mut g = prescribe();
    g[0] = 4;
    g[3] = 4;
    g[LABELS + 3] = 3;
    // It is the nurse who may say so.
    g[ALLOWS + 3] = 2;
    // In Fig. 5(a) don't trust is blocked until sign, "which enables give medicine and don't trust".
    g[CONDITIONS + 3] = 1;
    // Don't trust excludes give medicine.
    g[EXCLUDES + 3] = 2;
    // Sign is a response of don't trust.
    g[RESPONSES + 3] = 1;
    // "Re-execute sign which will include give medicine". That sign also includes don't trust is a choice: give medicine excludes it, and
    // after a new prescription "it should be possible to indicate" distrust anew. In the runs of Fig. 5 don't trust is included
    // whenever sign is done, so that no state of them depends on it.
    g[INCLUDES] = 10;
    // Give medicine excludes don't trust.
    g[EXCLUDES + 1] = 8;
    g
}
