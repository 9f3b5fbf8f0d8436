// A whole job, from its bytes to those of its request.
use crate::failed::Failed;
use smithy_bind::{Command, Scratch, Status, answer_bytes_over};
use std::io::{Input, Read};

/// Runs `request` with the job on standard input so many times, over one scratch. It fails where one isn't answered by its request.
pub fn run_job<R: Input + AllocGlobal>(rt: &R, times: u32) -> Result<(), Failed> {
    let alloc = rt.alloc();
    let mut job = Vec::new(alloc);
    rt.reader().read_to_end(&mut job)?;
    let mut scratch = Scratch::new(alloc);
    for _ in 0..times {
        match answer_bytes_over(alloc, &mut scratch, Command::Request, job.as_slice()).status {
            Status::Done => {}
            _ => return Err(Failed),
        }
    }
    Ok(())
}
