//! Events: what each comes to in each phase, what layers do, and what a power loss leaves.

ghost use Rattle.std.specs.Prelude.{List, ℕ};
ghost use Rattle.mb_model.specs.machine.Machine.{World};
ghost use Rattle.mb_model.specs.declared.state.State.{State};
ghost use Rattle.mb_model_examples.specs.StepExamples.{BootExamples, AlwaysExamples, SleepingExamples, AwakeExamples, GoExamples, StopExamples, MemoryExamples};
ghost use Rattle.mb_model_examples.specs.CallExamples.{CodeExamples, ActionExamples, DemandExamples, CallExamples, SealedExamples, StoppedCallExamples};
ghost use Rattle.mb_model_examples.specs.LayerExamples.{PutExamples, GetExamples, SignExamples, ClosedExamples, StoppedExamples};

/// Each event in each phase.
pub fn phase_examples()
    ensures boot { (state : State) → BootExamples state }
    ensures always { (world : World) → AlwaysExamples world }
    ensures sleeping { (state : State) → SleepingExamples state }
    ensures awake { (state : State) → AwakeExamples state }
    ensures go { (signature : List ℕ) → GoExamples signature }
{}

/// What layers do with their regions.
pub fn layer_examples()
    ensures put { (signature : List ℕ) → PutExamples signature }
    ensures get { (signature : List ℕ) → GetExamples signature }
    ensures sign { (message signature : List ℕ) → SignExamples message signature }
    ensures closed { (signature : List ℕ) → ClosedExamples signature }
{}

/// Which code takes calls, what outputs ask for, and what calls come to.
pub fn call_examples()
    ensures code { CodeExamples }
    ensures actions { ActionExamples }
    ensures demands { (signature : List ℕ) → DemandExamples signature }
    ensures calls { (input signature : List ℕ) → CallExamples input signature }
    ensures sealed { (code signature : List ℕ) → SealedExamples code signature }
    ensures stopped { (input signature : List ℕ) → StoppedCallExamples input signature }
{}

/// Which events never end in a stop.
pub fn power_examples()
    ensures { (world : World) → StopExamples world }
{}

/// What a stop leaves if a power loss is armed: the state as it was, or as it would have become, and no other.
pub fn stopped_examples()
    ensures { (signature : List ℕ) → StoppedExamples signature }
{}

/// Which events may be answered `no memory`, and which never are.
pub fn memory_examples()
    ensures { (world : World) → MemoryExamples world }
{}
