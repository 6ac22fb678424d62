use crate::{Jobs, TokenState};
use smm_base::Status;
use std::test::Fail;

#[test]
fn a_token_tells_its_job(rt: HostRuntime) -> Result<(), Fail> {
    let mut jobs = Jobs::new(rt.alloc(), 2)?;
    assert_eq!(rt; jobs.give(1, true).ok(), Some(1));
    assert!(rt; matches!(jobs.token(1), Some(TokenState::Open(1))));
    if jobs.job_of(1).is_some() {
        jobs.collect(1, 42, Status::Success);
    }
    assert_eq!(rt; jobs.job_of(1), None);
    let told = match jobs.token(1) {
        Some(TokenState::Finished { result, status }) => Some((result, status)),
        _ => None,
    };
    assert_eq!(rt; told, Some((42, Status::Success)));
    jobs.drop_token(1);
    assert!(rt; jobs.token(1).is_none());
    assert_eq!(rt; jobs.tokens(), 0);
    Ok(())
}
