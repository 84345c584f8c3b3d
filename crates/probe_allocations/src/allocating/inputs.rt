//! A schedule, a history and scripts, as texts.

pub(crate) const SCHEDULE: &str =
    r#"{"object":"queue","size":2,"seats":2,"events":[[0,"insert",5],[0,"step",7],[1,"delete"],[1,"step",7],[1,"step"],[1,"shut"],[1,"step"]]}"#;

pub(crate) const HISTORY: &str =
    r#"{"size":1,"marks":[[0,"claim-in"],[0,"put",7],[0,"fill",0],[0,"end-in"],[0,"close"],[1,"closed"],[1,"late-in"]]}"#;

pub(crate) const SCRIPT: &str =
    r#"{"version":2,"slots":3,"births":2,"quantum":1,"semaphores":[0,0],"files":2,"programs":[[["say","ping"],["up",1],["down",0],["spawn",2],["spawn",2],["yield"],["spawn",2]],[["down",1],["say","pong"],["open",7],["up",0],["stat",7],["close",7],["open",8]],[["say","child"],["yield"]]],"start":[0,1]}"#;

/// A script with nothing to do: its processors allocate nothing once their threads have begun.
pub(crate) const IDLE: &str =
    r#"{"version":1,"slots":1,"births":0,"quantum":1,"semaphores":[],"files":1,"programs":[],"start":[]}"#;

/// A script of one process, which has the same report on any number of processors.
pub(crate) const ONE_PROCESS: &str =
    r#"{"version":2,"slots":2,"births":0,"quantum":3,"semaphores":[9],"files":2,"programs":[[["say","a text that is said"],["down",0],["open",7],["yield"],["up",0],["yield"]]],"start":[0]}"#;
