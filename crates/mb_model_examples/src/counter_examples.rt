//! Values for which the definitions do not hold.

ghost use Rattle.std.specs.Prelude.{List, ℕ, Option};
ghost use Rattle.mb_model.specs.declared.key.PublicKey.{PublicKey};
ghost use Rattle.mb_model.specs.declared.entry.SignedEntry.{SignedEntry};
ghost use Rattle.mb_model.specs.declared.entry.Chain.{Chain};
ghost use Rattle.mb_model.specs.declared.order.Order.{Order};
ghost use Rattle.mb_model.specs.declared.state.Report.{Report};
ghost use Rattle.mb_model.specs.declared.state.State.{State};
ghost use Rattle.mb_model.specs.machine.Machine.{World};
ghost use Rattle.mb_model.specs.outside.Board.{Held};
ghost use Rattle.mb_model_examples.specs.MemoryCounterExamples.{AreaCounterExamples, MeaningCounterExamples, ImageCounterExamples, CleanCounterExamples, WipingCounterExamples, AnswerCounterExamples};
ghost use Rattle.mb_model_examples.specs.RunCounterExamples.{OrderCounterExamples, RefusalCounterExamples, StepCounterExamples, RunCounterExamples, ServedCounterExamples, LogCounterExamples, ChargeCounterExamples, IndexCounterExamples, AliveCounterExamples, RegionCounterExamples};
ghost use Rattle.mb_model_examples.specs.SegmentCounterExamples.{HeaderCounterExamples, CodeCounterExamples, LogSectorCounterExamples, TextsCounterExamples, HoldingCounterExamples, AgreementCounterExamples, KeepingCounterExamples, WriteCounterExamples};
ghost use Rattle.mb_model.specs.declared.entry.Entry.{Entry};
ghost use Rattle.mb_model.specs.declared.state.Codes.{Codes};
ghost use Rattle.mb_model.specs.declared.stored.Root.{Root};
ghost use Rattle.mb_model.specs.outside.Board.{Memory};
ghost use Rattle.mb_model_commands.specs.Outside.{Outside};
ghost use Rattle.mb_model_commands.specs.Inputs.{Image};
ghost use Rattle.mb_model_commands.specs.Commands.{Past, Ended};
ghost use Rattle.mb_model_commands.specs.declared.workload.Workload.{Workload};
ghost use Rattle.mb_model_examples.specs.ChainCounterExamples.{ChainCounterExamples, VerdictCounterExamples, StatementCounterExamples, AuditCounterExamples, ForgedCounterExamples};
ghost use Rattle.mb_model_examples.specs.CommandCounterExamples.{StatusCounterExamples, CommandCounterExamples, FileCounterExamples, HostCounterExamples};
ghost use Rattle.mb_model_examples.specs.TextCounterExamples.{LineCounterExamples, ScriptCounterExamples, DraftCounterExamples, OrderLineCounterExamples, DrawCounterExamples, WorkloadCounterExamples, BirthCounterExamples};

/// Memories and images.
pub fn memory_counter_examples()
    ensures areas { AreaCounterExamples }
    ensures meaning { (flash bbram : List ℕ) → MeaningCounterExamples flash bbram }
    ensures images { (image : List ℕ) → ImageCounterExamples image }
    ensures clean { (bbram : List ℕ) → CleanCounterExamples bbram }
{}

/// Flashes in segments: what they do not hold.
pub fn segment_counter_examples()
    ensures headers { HeaderCounterExamples }
    ensures codes { CodeCounterExamples }
    ensures log { LogSectorCounterExamples }
    ensures texts { TextsCounterExamples }
    ensures holding { (root : Root) (codes : Codes) (signed : List SignedEntry) (unsigned : List Entry) → HoldingCounterExamples root codes signed unsigned }
{}

/// Writes to flashes in segments: what does not stay.
pub fn write_counter_examples()
    ensures agreement { (other : List ℕ) → AgreementCounterExamples other }
    ensures keeping { (before after : Memory) → KeepingCounterExamples before after }
    ensures writes { WriteCounterExamples }
{}

/// What a board does not show, and answers that it may not give.
pub fn answer_counter_examples()
    ensures wiping { WipingCounterExamples }
    ensures answers { (standing now : Held) → AnswerCounterExamples standing now }
{}

/// Orders, steps and runs.
pub fn run_counter_examples()
    ensures orders { (state next : State) (text draw : List ℕ) → OrderCounterExamples state next text draw }
    ensures refusals { (state : State) (order : Order) → RefusalCounterExamples state order }
    ensures steps { (world next : World) → StepCounterExamples world next }
    ensures runs { (world next : World) → RunCounterExamples world next }
    ensures served { (image : Image) (final : Held) → ServedCounterExamples image final }
{}

/// Logs, keys and regions.
pub fn log_counter_examples()
    ensures logs { LogCounterExamples }
    ensures charge { (log front : List SignedEntry) (namer signed : SignedEntry) → ChargeCounterExamples log front namer signed }
    ensures indices { (signature : List ℕ) → IndexCounterExamples signature }
    ensures alive { AliveCounterExamples }
    ensures regions { (signature : List ℕ) → RegionCounterExamples signature }
{}

/// Chains and statements.
pub fn chain_counter_examples()
    ensures chains { (maker : PublicKey) (n : ℕ) → ChainCounterExamples maker n }
    ensures verdicts { (maker : PublicKey) (n : ℕ) (bytes : List ℕ) → VerdictCounterExamples maker n bytes }
    ensures statements { (maker : PublicKey) (n : ℕ) → StatementCounterExamples maker n }
    ensures audits { (state : State) (n : ℕ) (chain : Chain) (report : Report) → AuditCounterExamples state n chain report }
    ensures forged { (maker : PublicKey) (birth forged : SignedEntry) → ForgedCounterExamples maker birth forged }
{}

/// How commands do not end, and what hosts do not do.
pub fn command_counter_examples()
    ensures statuses { (past : Past) (e : Ended) → StatusCounterExamples past e }
    ensures commands { (past : Past) (e : Ended) (text : List ℕ) → CommandCounterExamples past e text }
    ensures files { (name text : List ℕ) (files : List ℕ → Option (List ℕ)) → FileCounterExamples name text files }
    ensures hosts { (before after : Outside) (name bytes : List ℕ) → HostCounterExamples before after name bytes }
{}

/// Texts.
pub fn text_counter_examples()
    ensures lines { LineCounterExamples }
    ensures scripts { ScriptCounterExamples }
    ensures drafts { DraftCounterExamples }
    ensures orders { OrderLineCounterExamples }
{}

/// Draws, workloads and new devices.
pub fn birth_counter_examples()
    ensures draws { DrawCounterExamples }
    ensures workloads { (number rounds : ℕ) (workload : Workload) → WorkloadCounterExamples number rounds workload }
    ensures births { (state : State) (image : List ℕ) → BirthCounterExamples state image }
{}
