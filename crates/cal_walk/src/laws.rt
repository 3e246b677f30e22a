//! What walking control forward has to do with the schedule.
ghost use Rattle.cal_walk.specs.Stages.{WalkingIsTheSchedule};

/// Control that is walked forward lets actors act, and is done, exactly where the schedule says so.
pub fn walking_is_the_schedule()
    ensures { WalkingIsTheSchedule }
{}
