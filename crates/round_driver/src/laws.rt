//! Laws of every run of rounds. The functions do nothing.
ghost use Rattle.std.specs.Prelude.{ℕ, List, Option};
ghost use Rattle.machine_core.specs.Words.{Event};
ghost use Rattle.machine_core.specs.Machine.{MachineState};
ghost use Rattle.round_driver.specs.declared.timing.Timing.{Timing};
ghost use Rattle.round_driver.specs.Stepping.{RoundsState, IsSameRun, AnswersOneLoad};
ghost use Rattle.round_driver.specs.Walks.{RunIsTold};

/// What was told is the machine's walk, and each request that isn't left ended once, in its order.
pub fn run_is_told()
    ensures { (timing : Timing) (s : MachineState) (requests : List Event) (n : ℕ)
        → RunIsTold timing s requests n }
{}

/// Requests that are offered one round at a time, each again until it ends, run as a list does.
pub fn one_at_a_time()
    ensures { (timing : Timing) (s : MachineState) (requests : List Event) (n : ℕ)
        → IsSameRun timing s requests n }
{}

/// A round answers at most one load.
pub fn one_load_a_round()
    ensures { (s : MachineState) (r : RoundsState) (request : Option Event)
        → AnswersOneLoad s r request }
{}
