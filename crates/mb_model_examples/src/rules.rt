//! Layers, their rules and the log at work.

ghost use Rattle.std.specs.Prelude.{List, ℕ};
ghost use Rattle.mb_model.specs.owners.Log.{RuledLog};
ghost use Rattle.mb_model_examples.specs.RuleExamples.{AuthorityExamples, TargetExamples, StandingExamples, AdmissionExamples, ConditionExamples, AfterExamples, life, LogExamples, LifeExamples};

/// Which changes a layer admits, by its trust and by who countersigned.
pub fn admission_examples()
    ensures { AdmissionExamples }
{}

/// Who has to sign an order of each kind.
pub fn authority_examples()
    ensures { AuthorityExamples }
{}

/// Which targets hold.
pub fn target_examples()
    ensures { (serial : List ℕ) → TargetExamples serial }
{}

/// How layers stand: unowned, unreliable, reliable, or runnable.
pub fn standing_examples()
    ensures { StandingExamples }
{}

/// When an order of each kind may be given.
pub fn condition_examples()
    ensures { ConditionExamples }
{}

/// What each kind of change leaves of the layers.
pub fn change_examples()
    ensures { AfterExamples }
{}

/// What the entries of a device's history say together, and the configurations in which its keys lived.
pub fn life_examples()
    ensures log { LogExamples }
    ensures ruled { RuledLog life }
    ensures lives { LifeExamples }
{}
