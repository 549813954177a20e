//! Laws of runs: when a machine's run agrees with the run of a forest.
ghost use Rattle.program_runs.specs.Laws.{ReachedRunsAgree, CountedCallsAgree};

/// A run of a machine with these states that comes as far as a reference run each time agrees with it; and one that agrees
/// with a call whose steps are counted for each body by itself agrees with the call whose steps are
/// counted over all bodies, where that has a meaning. The call does nothing: it is these facts.
pub fn runs_agree<S>()
    ensures reached { ReachedRunsAgree S }
    ensures counted { CountedCallsAgree S }
{}
