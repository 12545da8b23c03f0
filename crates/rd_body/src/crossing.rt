//! Jobs and what came of them go to other threads, and the code that they share is read by several.

use crate::job::{BodyJob, Finished};
use rd_code::TaskCode;

fn wants_sending<T: Send>(_value: &T) {}

fn wants_crossing<T: Send + Sync>(_value: &T) {}

pub fn code_crosses(code: &TaskCode) {
    wants_crossing(code);
}

pub fn job_is_sent(job: &BodyJob) {
    wants_sending(job);
}

pub fn finished_is_sent(finished: &Finished) {
    wants_sending(finished);
}
