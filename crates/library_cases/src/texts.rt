// The text of a trial whose words don't come out as they were made, which no run prints.
use column_map::Candidate;
use rip_report::{Report, TrialResult, text_of};
use std::test::Fail;

#[test]
fn a_trial_that_fails_is_told(rt: HostRuntime) -> Result<(), Fail> {
    let trial = Report::TrialOf {
        sectors: 100,
        seed: 7,
        shift: -17,
        hits: 4,
        result: TrialResult::Mended {
            at: Candidate {
                offset: 0,
                errors: 0,
                columns: 0,
            },
            same: false,
        },
    };
    assert_eq!(rt;
        text_of(rt.alloc(), &trial)?.as_str(),
        "trial sectors 100 seed 7 shift -17 hits 4\noffset +0 errors 0 columns 0\nsame no\n"
    );
    Ok(())
}
